// The Sibson element on one cell of any width and height.
#![tactic(auto)]

pub mod theorems;
