// Listing the bends from each piece that touches a pixel: the refusals, and the list in the lent buffer, cell by cell.
#![tactic(auto)]

ghost use Rattle.std.specs.Prelude.{◌≡◌, ◌+◌, ◌≤◌, length};
ghost use Rattle.std.proofs.lemmas.List.Edits.{sets};
ghost use Rattle.sheet_layout.specs.Format.{columns, rows, line_x, line_y};
ghost use Rattle.surface_of_sheet.specs.Place.{columns_at};
ghost use Rattle.surface_places.specs.Found.{CellTouches, cells_of};
ghost use Rattle.surface_bends.specs.Bends.{bends, tally, counted, with_bends};
ghost use Rattle.surface_bend_list.specs.Rows.{bends_in, bends_in_row};

use element_bends::cell_bends;
use sheet_calls::refusal::Refusal;
use surface_cells::corner_numbers;
use surface_places::spot::Spot;
use surface_places::{Cells, Lines};

// How many places the buffer has at least: three for each of eight pieces.
const PLACES: usize = 24;

// Stores the list in the first places of the buffer, and answers how many pieces it is of; or, refused, leaves the buffer as it was.
pub fn bends(sheet: &[u8], x: u32, y: u32, list: &mut [i64]) -> Result<u32, Refusal>
    ensures answer { tally result ≡ counted sheet.now x y (length list.old) }
    ensures list { list.new ≡ with_bends sheet.now x y list.old }
{
    let spot = Spot::new(sheet, x, y)?;
    if list.len() < PLACES {
        return Err(Refusal::ShortList);
    }
    let numbers = list_rows(spot, list);
    Ok((numbers / 3) as u32)
}

// Stores the bends from all cells that touch the pixel, row by row, and answers how many numbers they are. The list comes whole, with the place to store at:
// there is no heap to gather it on.
fn list_rows(spot: Spot, list: &mut [i64]) -> usize
    requires { 24 ≤ length list.old }
    ensures answer { result ≡ length (bends spot.entry.sheet.bytes.now spot.entry.x spot.entry.y) }
    ensures list { list.new ≡ sets list.old 0 (bends spot.entry.sheet.bytes.now spot.entry.x spot.entry.y) }
{
    let cells = spot.cells();
    let mut at = 0;
    for row in cells.rows.lowest..cells.rows.highest + 1 {
        at = list_row(spot, cells.columns, row, list, at);
    }
    at
}

// Stores those from one row of cells from place `at` on, and answers the place behind them.
fn list_row(spot: Spot, cells: Cells, row: usize, list: &mut [i64], at: usize) -> usize
    requires touches { (cells ≡ cells_of (columns_at spot.sheet.bytes.now spot.x)) × CellTouches (line_y spot.sheet.bytes.now) (rows spot.sheet.bytes.now) row spot.y }
    requires row_in_bounds { at + length (bends_in_row spot.sheet.bytes.now spot.x spot.y row) ≤ length list.old }
    ensures answer { result ≡ at + length (bends_in_row spot.entry.sheet.bytes.now spot.entry.x spot.entry.y row) }
    ensures list { list.new ≡ sets list.old at (bends_in_row spot.entry.sheet.bytes.now spot.entry.x spot.entry.y row) }
{
    let mut end = at;
    for column in cells.lowest..cells.highest + 1 {
        end = list_cell(spot, column, row, list, end);
    }
    end
}

// Stores those from one cell.
fn list_cell(spot: Spot, column: usize, row: usize, list: &mut [i64], at: usize) -> usize
    requires touches { CellTouches (line_x spot.sheet.bytes.now) (columns spot.sheet.bytes.now) column spot.x × CellTouches (line_y spot.sheet.bytes.now) (rows spot.sheet.bytes.now) row spot.y }
    requires column_in_bounds { at + length (bends_in spot.sheet.bytes.now spot.x spot.y row column) ≤ length list.old }
    ensures answer { result ≡ at + length (bends_in spot.entry.sheet.bytes.now spot.entry.x spot.entry.y row column) }
    ensures list { list.new ≡ sets list.old at (bends_in spot.entry.sheet.bytes.now spot.entry.x spot.entry.y row column) }
{
    let p = Lines::of(spot.sheet).pixel_in(column, row, spot.x, spot.y);
    let n = corner_numbers(spot.sheet, column, row, p.width, p.height);
    cell_bends(n, p, list, at)
}
