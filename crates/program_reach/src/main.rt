// The program `reach` of 02, #105: reads a sheet, a column byte and a row byte from standard input, at most 25,621 bytes, and prints the positions of the left,
// top, right and bottom outermost lines of the cells that touch this node, or the number that refuses it.
// No contract speaks of what is read and written. Which line is to be printed is proved in `program_reach_line`.
#![tactic(auto)]

use bounded_input::read_full;
use program_reach_line::{INPUT_ROOM, LINE_ROOM, reach_text};

// A write that fails leaves the line out.
fn main(rt: HostRuntime) {
    let mut bytes = [0u8; INPUT_ROOM];
    let n = read_full(&mut rt.stdin(), &mut bytes);
    let input = &bytes[..n];
    let mut out = [0u8; LINE_ROOM];
    let end = reach_text(input, &mut out);
    let _ = rt.write_all(&out[..end]);
}
