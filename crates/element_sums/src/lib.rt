// Sums of corner numbers, of the cubics that they give, and of what is read from them. Definitions and theorems.
#![tactic(auto)]

pub mod theorems;
