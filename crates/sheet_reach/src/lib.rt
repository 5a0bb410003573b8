// How far one node reaches: the cells that touch it, their outermost lines, and when the program `reach` refuses its input. Definitions and theorems, and the
// type of what the program answers; the code is in `sheet_reaching`.
#![tactic(auto)]

pub mod theorems;

// The positions of the touched cells' outermost lines.
#[derive(Clone, Copy, Debug, PartialEq, Eq)]
pub struct OuterLines {
    pub left: u32,
    pub top: u32,
    pub right: u32,
    pub bottom: u32,
}
