// What is noted of a code in the spare table; 0 is nothing. Numbers, and no enum: they stand in words of the lent area, under a shade.

// Some rota has it.
pub const POSSIBLE: u16 = 1;

// It leads to its opposite.
pub const FAILS: u16 = 2;

// A word of this or more is shaded, while two walks are compared: its note is what is left of it modulo this.
pub(crate) const SHADE: u16 = 4;
