// When a call is refused, and what looking up and setting a node do: definitions and theorems, the refusals, and the type of an accepted sheet. The code of the
// check is in `sheet_checking`, that of nodes in `sheet_nodes`, that of readings and runs in the surface.
#![tactic(auto)]

pub mod accepted;
pub mod refusal;
pub mod theorems;
