// The calls of a light sheet, for every input: no call has a `requires`, and each outcome is an equation over what the call is given.
#![tactic(auto)]

ghost use Rattle.std.specs.Prelude.{◌≡◌, length};
ghost use Rattle.sheet_layout.specs.Format.{node};
ghost use Rattle.sheet_calls.specs.Refusals.{check_refusal, lookup_refusal, setting_refusal, run_refusal};
ghost use Rattle.sheet_calls.specs.Refused.{refusal_number};
ghost use Rattle.sheet_calls.specs.Calls.{looked_up, Part, with_node};
ghost use Rattle.sheet_slopes.specs.Slopes.{slope_refusal, with_slopes};
ghost use Rattle.sheet_pool.specs.Pool.{pool_refusal, with_pool};
ghost use Rattle.surface_answers.specs.Answers.{outcome};
ghost use Rattle.surface_of_sheet.specs.Read.{read};
ghost use Rattle.surface_of_sheet.specs.Run.{filled};
ghost use Rattle.surface_bends.specs.Bends.{tally, counted, with_bends};
ghost use Rattle.surface_zones.specs.Zoned.{zoned_outcome, zoned_answer, zoned_run_refusal, zoned_filled};

use sheet_calls::refusal::Refusal;
use sheet_layout::node::Node;
use surface_answers::Answer;

// Checks a sheet: Ok where it is accepted, else the first of the conditions 1 to 6 that holds.
pub fn check(sheet: &[u8]) -> Result<(), Refusal>
    ensures answer { refusal_number result ≡ check_refusal sheet.now }
    ensures kept { sheet.exit.now ≡ sheet.now }
{
    sheet_checking::check(sheet)
}

// Looks up the node at a column and row, from 0: its six bytes inside the sheet; or, refused, an empty part from the sheet's start.
pub fn node(sheet: &[u8], column: u32, row: u32) -> &[u8]
    ensures answer { Part sheet.entry result (looked_up sheet.now column row) }
    ensures kept { sheet.exit.now ≡ sheet.now }
{
    sheet_nodes::node(sheet, column, row)
}

// The companion of `node`: what refuses it on the same input (1 to 6, 10), or Ok.
pub fn node_refusal(sheet: &[u8], column: u32, row: u32) -> Result<(), Refusal>
    ensures answer { refusal_number result ≡ lookup_refusal sheet.now column row }
    ensures kept { sheet.exit.now ≡ sheet.now }
{
    sheet_nodes::node_refusal(sheet, column, row)
}

// Sets the node at a column and row to a height, in steps, and two slopes, in grains per pixel; or, refused (1 to 6, 10, 11), leaves the sheet as it was.
pub fn set_node(
    sheet: &mut [u8],
    column: u32,
    row: u32,
    height: i32,
    x_slope: i32,
    y_slope: i32,
) -> Result<(), Refusal>
    ensures answer { refusal_number result ≡ setting_refusal sheet.old column row (node height x_slope y_slope) }
    ensures sheet { sheet.new ≡ with_node sheet.old column row (node height x_slope y_slope) }
{
    let numbers = Node {
        height,
        x_slope,
        y_slope,
    };
    sheet_nodes::set_node(sheet, column, row, numbers)
}

// Fills every slope of the sheet from its heights, with a stiffness from 0 to 64; or, refused (1 to 6, 12, 13), leaves the sheet as it was.
pub fn fill_slopes(sheet: &mut [u8], stiffness: u32) -> Result<(), Refusal>
    ensures answer { refusal_number result ≡ slope_refusal sheet.old stiffness }
    ensures sheet { sheet.new ≡ with_slopes sheet.old stiffness }
{
    sheet_filling::fill_slopes(sheet, stiffness)
}

// Pools two sheets on the same lines into the target, each height and slope the sum of the two; or, refused (1 to 6 of the first sheet, 15, 16, 17, 11), leaves
// the target as it was.
pub fn pool(first: &[u8], second: &[u8], target: &mut [u8]) -> Result<(), Refusal>
    ensures answer { refusal_number result ≡ pool_refusal first.now second.now (length target.old) }
    ensures target { target.new ≡ with_pool first.now second.now target.old }
    ensures first { first.exit.now ≡ first.now }
    ensures second { second.exit.now ≡ second.now }
{
    sheet_pooling::pool(first, second, target)
}

// Reads at the pixel (x, y): kind 0 is the level in steps, 1 the tilt (x, y) in steps per pixel, 2 the bend (xx, xy, yy) in steps per pixel per pixel; or
// `Refused` with the number (1 to 6, 7, 9). The kind comes as a number, since any other is refused.
pub fn read(sheet: &[u8], x: u32, y: u32, kind: u32) -> Answer
    ensures answer { outcome result ≡ read sheet.now x y kind }
    ensures kept { sheet.exit.now ≡ sheet.now }
{
    surface_pixels::read(sheet, x, y, kind)
}

// Lists the bend (xx, xy, yy) from each piece that touches the pixel (x, y), in 1/64 grain per pixel per pixel: cells row by row, in each the pieces by number.
// The list stands in the first places of the lent buffer, and the places behind it keep their contents. Answers how many pieces there are; or, refused (1 to 6,
// 7, 14), leaves the buffer as it was.
pub fn bends(sheet: &[u8], x: u32, y: u32, list: &mut [i64]) -> Result<u32, Refusal>
    ensures answer { tally result ≡ counted sheet.now x y (length list.old) }
    ensures list { list.new ≡ with_bends sheet.now x y list.old }
    ensures kept { sheet.exit.now ≡ sheet.now }
{
    surface_bend_list::bends(sheet, x, y, list)
}

// Fills the lent row with the levels at the pixel (x, y) and at those to its right, one for each slot, in grains; or, refused (1 to 6, 7, 8), leaves the row as
// it was.
pub fn fill_run(sheet: &[u8], x: u32, y: u32, levels: &mut [i32]) -> Result<(), Refusal>
    ensures answer { refusal_number result ≡ run_refusal sheet.now x y (length levels.old) }
    ensures levels { levels.new ≡ filled sheet.now x y levels.old }
    ensures kept { sheet.exit.now ≡ sheet.now }
{
    surface_filling::fill_run(sheet, x, y, levels)
}

// The zoned level at the pixel (x, y), in grains: the level, which each zone of the list that holds the pixel, in list order, raises to its floor if below, then
// lowers to its ceiling if above; or what refuses it (1 to 6, 7, 18, 19).
pub fn zoned_level(sheet: &[u8], zones: &[u8], x: u32, y: u32) -> Result<i32, Refusal>
    ensures answer { zoned_outcome result ≡ zoned_answer sheet.now zones.now x y }
    ensures sheet { sheet.exit.now ≡ sheet.now }
    ensures zones { zones.exit.now ≡ zones.now }
{
    surface_zoning::zoned_level(sheet, zones, x, y)
}

// Fills the lent row with the zoned levels at the pixel (x, y) and at those to its right, one for each slot, in grains; or, refused (1 to 6, 7, 8, 18, 19),
// leaves the row as it was.
pub fn fill_zoned_run(
    sheet: &[u8],
    zones: &[u8],
    x: u32,
    y: u32,
    levels: &mut [i32],
) -> Result<(), Refusal>
    ensures answer { refusal_number result ≡ zoned_run_refusal sheet.now zones.now x y (length levels.old) }
    ensures levels { levels.new ≡ zoned_filled sheet.now zones.now x y levels.old }
    ensures sheet { sheet.exit.now ≡ sheet.now }
    ensures zones { zones.exit.now ≡ zones.now }
{
    surface_zoning::fill_zoned_run(sheet, zones, x, y, levels)
}
