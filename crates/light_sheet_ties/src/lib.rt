// Each public call, each for C, and the workers of a run and of the program `reach`, with the record that the demands speak of for its contract: whatever they
// give and leave is what the demands are about.
#![tactic(auto)]

pub mod calls;
pub mod calls_for_c;
pub mod workers;
