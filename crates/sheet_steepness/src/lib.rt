// The slopes that heights give at each node, and whether some of them is too steep.
#![tactic(auto)]

pub mod looking;
pub mod slopes;
