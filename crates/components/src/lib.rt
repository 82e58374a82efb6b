// Which codes are tied, found in one walk over all of them, and what follows: whether some choice clashes, and the ties.
// For the crates above only: the walk asks its callers for the lists that `moves::index` makes. It is Tarjan's, because that is
// linear in codes and rules and needs no table beyond the lent work area.
#![tactic(auto)]

mod scan; // looks along a code's list
mod settle; // a component is found
mod tables; // the walk's own names for the tables of the work area
pub mod ties; // what is read off at the end
pub mod walk; // the walk itself
