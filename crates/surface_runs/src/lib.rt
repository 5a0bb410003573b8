// Levels along a row of pixels of an accepted sheet, from left to right, one column of cells after the other.
#![tactic(auto)]

ghost use Rattle.std.specs.Prelude.{◌≡◌, suc, ◌+◌, ◌-◌, ◌≤◌, ◌<◌, length};
ghost use Rattle.integers.specs.Stepwise.{steps};
ghost use Rattle.sheet_layout.specs.Format.{columns, line_x};
ghost use Rattle.sheet_calls.specs.WellFormed.{OnMesh};
ghost use Rattle.surface_of_sheet.specs.Run.{after_steps};
ghost use Rattle.surface_runs.specs.Strips.{strip_level, done_in, AtColumn};

use element_cell::Pixel;
use element_spans::fill_cell;
use sheet_calls::accepted::Sheet;
use sheet_layout::axis::Axis;
use sheet_layout::header::columns;
use surface_cells::corner_numbers;
use surface_places::spot::Spot;

// The cells that a row of pixels lies in: their row, the pixels' offset from their top edge, their height.
#[derive(Clone, Copy)]
pub struct Strip {
    pub row: usize,
    pub offset: usize,
    pub height: usize,
}

// Makes the first `budget` steps of the run from (x, y): each stores one level in its slot of the row, strictly from left to right. The other slots keep
// what they hold.
// Bytes, a first pixel and the whole row, and no `Spot` or part of the row: `OnMesh` is of all the run's pixels, and each step of the budget is one of `RowGrows`.
pub fn run(sheet: &[u8], x: u32, y: u32, row: &mut [i32], budget: usize)
    requires { OnMesh sheet.now x y budget × (budget ≤ length row.old) }
    ensures { row.new ≡ after_steps sheet.now x y budget row.old }
{
    let sheet = Sheet { bytes: sheet };
    let spot = Spot { sheet, x, y };
    let place = spot.place();
    let pixel = place.pixel;
    let strip = Strip {
        row: place.row,
        offset: pixel.b,
        height: pixel.height,
    };
    let mut column = place.column;
    let mut done: usize = 0;
    // Not a `for`: how many pixels a column of cells has is known only when it is filled.
    while done < budget {
        done = fill_column(sheet, strip, column, x as usize, row, done, budget);
        column += 1;
    }
}

// Goes on with a run of `count` pixels, its budget, through one column of cells, and answers how many of them are done then.
fn fill_column(
    sheet: Sheet,
    strip: Strip,
    column: usize,
    x: usize,
    row: &mut [i32],
    done: usize,
    count: usize,
) -> usize
    requires { AtColumn sheet.bytes.now strip x count done column × (count ≤ length row.old) }
    ensures answer { result ≡ done_in sheet.entry.bytes.now x column count }
    ensures row { row.new ≡ steps (λ k. strip_level sheet.entry.bytes.now strip (x + k)) done (result - done) row.old }
{
    let left = Axis::X.line(sheet.bytes, column) as usize;
    let right = Axis::X.line(sheet.bytes, column + 1) as usize;
    let width = right - left;
    let end = done_in(sheet, column, right, x, count);
    let n = corner_numbers(sheet, column, strip.row, width, strip.height);
    let next = Pixel {
        a: x + done - left,
        b: strip.offset,
        width,
        height: strip.height,
    };
    fill_cell(row, done, end - done, n, next);
    end
}

// How many of the run's pixels are done when those in this column, up to its right line, are.
fn done_in(sheet: Sheet, column: usize, right: usize, x: usize, count: usize) -> usize
    requires { (suc column < columns sheet.bytes.now) × (right ≡ line_x sheet.bytes.now (suc column)) × (x ≤ right) }
    ensures { result ≡ done_in sheet.entry.bytes.now x column count }
{
    if column + 2 == columns(sheet.bytes) {
        return count;
    }
    count.min(right - x)
}
