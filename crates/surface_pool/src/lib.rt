// The surface of a pool, and its levels beside those of the sheets that are pooled. Theorems.
#![tactic(auto)]

pub mod theorems;
