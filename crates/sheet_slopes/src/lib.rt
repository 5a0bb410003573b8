// Slopes from heights alone: the slopes of a stiffness, when filling them is refused, and what it leaves. Definitions and theorems; the code is in
// `sheet_steepness` and `sheet_filling`.
#![tactic(auto)]

pub mod theorems;
