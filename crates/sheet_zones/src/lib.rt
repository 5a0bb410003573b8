// Zones on the screen: a lent list of them, those that hold a pixel, and what they do to a level. Definitions and theorems; the code is in `sheet_zoning`.
#![tactic(auto)]

pub mod theorems;
