// The program `levels` of 01: reads a sheet from standard input, at most 25,619 bytes, and prints a line for each of its pixels, or the number that refuses it.
// No contract speaks of what is read and written. Which text comes next, and that the texts are all that is to be printed, is proved in `program_listing`.
#![tactic(auto)]

use bounded_input::read_full;
use program_listing::{INPUT_ROOM, Listing, ROW_ROOM, next_text, text_count};

// Reads, then writes each text in turn, until a write fails.
fn main(rt: HostRuntime) {
    let mut bytes = [0u8; INPUT_ROOM];
    let n = read_full(&mut rt.stdin(), &mut bytes);
    let listing = Listing::of(&bytes[..n]);
    let mut out = [0u8; ROW_ROOM];
    for k in 0..text_count(listing) {
        let end = next_text(listing, k, &mut out);
        if rt.write_all(&out[..end]).is_err() {
            return;
        }
    }
}
