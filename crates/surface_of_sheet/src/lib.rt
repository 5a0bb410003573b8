// The surface of a sheet: a pixel's place, level, tilt and bend there, what a reading answers and what a run leaves. Definitions and theorems; `surface_places`,
// `surface_cells`, `surface_pixels`, `surface_runs` and `surface_filling` have the code.
#![tactic(auto)]

pub mod theorems;
