// That uniqueness needs its conditions: without any one edge, or any two half diagonals, two different sets have the same corners.
#![tactic(auto)]

pub mod theorems;
