// Zoned levels and zoned runs: when the calls are refused, what they answer and what they leave. Definitions and theorems; the code is in `surface_zoning`.
#![tactic(auto)]

pub mod theorems;
