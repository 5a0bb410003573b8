// The call `fill_run`: its line ends in the levels. A word follows for each thing that must not be, and that the expected output never has: `row_altered`,
// of a row that a refused call was lent; `margin_altered`, of slots beside the row; `unlike_read`, of a level that `read` does not give.
ghost use Rattle.std.specs.Prelude.{◌≤◌, length};

use super::lines::{Case, answer};
use sheet_calls::refusal::refusal_number;
use std::io;
use surface_answers::{Answer, LevelReading};

// How many slots before the lent row, and after it, are looked at: no cell is wider.
const MARGIN: usize = 64;

// A row that the buffer does not hold between two margins is left out, and its line is then missing.
pub fn fill_run(rt: &impl Print, case: Case<'_>, x: u32, y: u32, size: u32) -> io::Result<()> {
    let mut buffer = [0i32; 5128];
    let end = MARGIN + size as usize;
    if end + MARGIN <= buffer.len() {
        case.call_at(rt, "fill_run", x, y)?;
        print!(rt; "{size} ")?;
        fill_lent(rt, case.sheet, x, y, &mut buffer[..end + MARGIN], end)?;
        println!(rt; "")?;
    }
    Ok(())
}

// Lends the slots of the buffer from the first margin to `end`.
fn fill_lent(
    rt: &impl Print,
    sheet: &[u8],
    x: u32,
    y: u32,
    buffer: &mut [i32],
    end: usize,
) -> io::Result<()>
    requires { (64 ≤ end) × (end ≤ length buffer.old) }
{
    mark(buffer);
    let outcome = light_sheet::fill_run(sheet, x, y, &mut buffer[MARGIN..end]);
    answer(rt, refusal_number(outcome))?;
    if outcome.is_ok() {
        levels(rt, &buffer[MARGIN..end])?;
        if !as_read(sheet, x, y, &buffer[MARGIN..end]) {
            print!(rt; " unlike_read")?;
        }
    } else if !marked(buffer, MARGIN, end) {
        print!(rt; " row_altered")?;
    }
    if !marked(buffer, 0, MARGIN) || !marked(buffer, end, buffer.len()) {
        print!(rt; " margin_altered")?;
    }
    Ok(())
}

// Marks every slot.
fn mark(buffer: &mut [i32]) {
    for (slot, level) in buffer.iter_mut().enumerate() {
        *level = mark_of(slot);
    }
}

// Whether the slots from one on, and before another, have their marks.
fn marked(buffer: &[i32], from: usize, to: usize) -> bool {
    buffer
        .iter()
        .enumerate()
        .take(to)
        .skip(from)
        .all(|(slot, level)| *level == mark_of(slot))
}

// A number for each slot of a buffer, all different and none a level.
fn mark_of(slot: usize) -> i32 {
    (1048576 + slot % 1048576) as i32
}

fn levels(rt: &impl Print, row: &[i32]) -> io::Result<()> {
    for level in row {
        print!(rt; " {level}")?;
    }
    Ok(())
}

// Whether `read` gives the row's levels, from (x, y) on to the right.
fn as_read(sheet: &[u8], x: u32, y: u32, row: &[i32]) -> bool {
    row.iter()
        .enumerate()
        .all(|(k, level)| reads(sheet, x, k, y, *level))
}

// Whether `read` gives this level at the pixel k slots to the right of (x, y), on a mesh that ends by 4,096.
fn reads(sheet: &[u8], x: u32, k: usize, y: u32, level: i32) -> bool {
    if 4096 < x || 4096 < k {
        return false;
    }
    match light_sheet::read(sheet, x + k as u32, y, 0) {
        Answer::Level(steps) => steps * LevelReading::DIVISOR == f64::from(level),
        _ => false,
    }
}
