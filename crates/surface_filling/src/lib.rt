// Filling a run: its refusals, and then its levels, each stored once in the caller's row.
#![tactic(auto)]

ghost use Rattle.std.specs.Prelude.{◌≡◌, length};
ghost use Rattle.sheet_calls.specs.Refusals.{off_mesh, run_refusal};
ghost use Rattle.sheet_calls.specs.Refused.{refusal_number};
ghost use Rattle.surface_of_sheet.specs.Run.{filled};

use sheet_calls::accepted::Sheet;
use sheet_calls::refusal::Refusal;
use sheet_checking::accepted;
use surface_places::Lines;
use surface_runs::run;

// How many pixels the longest row has: no line lies beyond 4,096.
const LONGEST_ROW: usize = 4097;

// Fills the lent row with the levels from (x, y) to the right, one for each slot; or, refused, leaves the row as it was.
pub fn fill_run(sheet: &[u8], x: u32, y: u32, levels: &mut [i32]) -> Result<(), Refusal>
    ensures answer { refusal_number result ≡ run_refusal sheet.now x y (length levels.old) }
    ensures levels { levels.new ≡ filled sheet.now x y levels.old }
{
    let count = levels.len();
    run_refusal(sheet, x, y, count)?;
    run(sheet, x, y, levels, count);
    Ok(())
}

// What refuses a run of `count` pixels, or Ok.
pub fn run_refusal(sheet: &[u8], x: u32, y: u32, count: usize) -> Result<(), Refusal>
    ensures { refusal_number result ≡ run_refusal sheet.now x y count }
{
    let sheet = accepted(sheet)?;
    if off_mesh(sheet, x, y, count) {
        return Err(Refusal::Outside);
    }
    if count == 0 {
        return Err(Refusal::EmptyRun);
    }
    Ok(())
}

// Whether the first pixel, or the last of a run that is not empty, lies outside the mesh. A run of more than a row's pixels has its last outside; a shorter
// one's last fits 32 bits, so no sum wraps.
fn off_mesh(sheet: Sheet, x: u32, y: u32, count: usize) -> bool
    ensures { result ≡ off_mesh sheet.entry.bytes.now x y count }
{
    let lines = Lines::of(sheet);
    if lines.outside(x, y) {
        return true;
    }
    if count == 0 {
        return false;
    }
    if LONGEST_ROW < count {
        return true;
    }
    lines.outside(x + (count - 1) as u32, y)
}
