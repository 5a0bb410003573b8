// Input that is read into lent memory, as much of it as there is room for.
#![tactic(auto)]

ghost use Rattle.std.specs.Prelude.{◌≡◌, ◌≤◌, length, take};
ghost use Rattle.std.specs.Io.KnownBytes.{Consumes};

use std::io::Read;

// Reads until `to` is full, the input ends or a read fails, and answers how many bytes stand at the start of `to`: those that the input has lost.
// A read that fails counts as the end of the input. The library's readers give no count of what came before one, or need a `Vec`.
pub fn read_full<R: Read>(input: &mut R, to: &mut [u8]) -> usize
    ensures size { (result ≤ length to.new) × (result ≡ length (take result to.new)) }
    ensures bytes { Consumes (R.remaining input.old) (R.remaining input.new) (take result to.new) }
{
    let mut done = 0;
    while done < to.len() {
        match input.read(&mut to[done..]) {
            Ok(0) | Err(_) => return done,
            Ok(n) => done += n,
        }
    }
    done
}
