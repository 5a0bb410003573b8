// A sheet put together from the header and lines of another and the bytes of its nodes. Definitions and theorems; the code is in the crates of the calls that
// write all nodes.
#![tactic(auto)]

pub mod theorems;
