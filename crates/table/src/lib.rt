// The marked table, the six idle engines and the examples of meaning's definitions: nothing runs here, and all of it is proved by computing.
#![tactic(auto)]
