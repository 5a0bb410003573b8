// The line that the program `reach` prints: the outermost lines of the cells that a node touches, or the number of a refusal.
#![tactic(auto)]

pub mod theorems;

ghost use Rattle.std.specs.Prelude.{◌≡◌, ◌≤◌, length};
ghost use Rattle.sheet_words.specs.Word.{replaced};
ghost use Rattle.program_reach_line.specs.ReachLine.{printed, line_room};

// How many bytes of the input are read at most: the longest sheet has 25,618, a column and a row follow, and one more tells a longer input.
pub const INPUT_ROOM: usize = 25621;

// Room for the line.
pub const LINE_ROOM: usize = 64;

// Writes the line to the start of `out`, and answers how many bytes it has.
pub fn reach_text(input: &[u8], out: &mut [u8]) -> usize
    requires { line_room ≤ length out.old }
    ensures count { result ≡ length (printed input.now) }
    ensures text { out.new ≡ replaced out.old 0 (printed input.now) }
{
    match sheet_reaching::reach(input) {
        Ok(lines) => {
            let numbers = [
                i64::from(lines.left),
                i64::from(lines.top),
                i64::from(lines.right),
                i64::from(lines.bottom),
            ];
            program_text::line(out, 0, &numbers)
        }
        Err(refusal) => program_text::refused(out, refusal.number()),
    }
}
