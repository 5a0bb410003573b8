// Readings of a piece: level, tilt and bend, how large they are, and what a corner's height weighs in them. Definitions and theorems; `element_evaluation` has the code.
#![tactic(auto)]

pub mod theorems;
