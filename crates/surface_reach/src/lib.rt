// One height of a sheet nudged: which levels change, which way, and by how much. Definitions and theorems.
#![tactic(auto)]

pub mod theorems;
