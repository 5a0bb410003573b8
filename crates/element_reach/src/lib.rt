// What a change of a corner's height does to a level. Definitions and theorems.
#![tactic(auto)]

pub mod theorems;
