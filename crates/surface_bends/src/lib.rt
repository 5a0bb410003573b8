// Bends from each piece that touches a pixel: the list, when it is refused, and what the call answers and leaves. Definitions and theorems; the code is in
// `surface_bend_list`.
#![tactic(auto)]

pub mod theorems;
