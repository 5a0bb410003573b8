// The calls of a light sheet for C and Rust, with the outcomes of those of `light_sheet`, and all but `lvs_node_offset` thin over them. No call has a
// `requires`. `light_sheet_archive` has them once more under their names for C, where a slice is a pointer and a length and an array a pointer;
// include/light_sheet.h declares them.
#![tactic(auto)]

mod slots;

ghost use Rattle.std.specs.Prelude.{◌≡◌, length};
ghost use Rattle.sheet_layout.specs.Format.{node};
ghost use Rattle.sheet_calls.specs.Refusals.{check_refusal, lookup_refusal, setting_refusal, run_refusal};
ghost use Rattle.sheet_calls.specs.Calls.{looked_up, with_node};
ghost use Rattle.sheet_slopes.specs.Slopes.{slope_refusal, with_slopes};
ghost use Rattle.sheet_pool.specs.Pool.{pool_refusal, with_pool};
ghost use Rattle.surface_of_sheet.specs.Read.{read};
ghost use Rattle.surface_of_sheet.specs.Run.{filled};
ghost use Rattle.surface_bends.specs.Bends.{counted, with_bends};
ghost use Rattle.surface_zones.specs.Zoned.{zoned_answer, zoned_run_refusal, zoned_filled};
ghost use Rattle.light_sheet_c.specs.Values.{bits, over, count_over, level_over};

use sheet_calls::refusal::refusal_number;

// Checks a sheet: 0 where it is accepted, else the number of the first of the conditions 1 to 6 that holds.
pub fn lvs_check(sheet: &[u8]) -> u32
    ensures answer { result ≡ check_refusal sheet.now }
    ensures kept { sheet.exit.now ≡ sheet.now }
{
    refusal_number(light_sheet::check(sheet))
}

// The number that refuses looking up the node at a column and row (1 to 6, 10), or 0.
pub fn lvs_node_refusal(sheet: &[u8], column: u32, row: u32) -> u32
    ensures answer { result ≡ lookup_refusal sheet.now column row }
    ensures kept { sheet.exit.now ≡ sheet.now }
{
    refusal_number(light_sheet::node_refusal(sheet, column, row))
}

// Where the six bytes of the node at a column and row start in the sheet; or, refused, 0. C has no slices: this is the start of the part that `node` hands
// back.
pub fn lvs_node_offset(sheet: &[u8], column: u32, row: u32) -> usize
    ensures answer { result ≡ (looked_up sheet.now column row).start }
    ensures kept { sheet.exit.now ≡ sheet.now }
{
    match light_sheet::node_refusal(sheet, column, row) {
        Ok(()) => sheet_layout::node_offset(sheet, column as usize, row as usize),
        Err(_) => 0,
    }
}

// Sets the node at a column and row to a height, in steps, and two slopes, in grains per pixel, and answers 0; or, refused (1 to 6, 10, 11), answers the
// number and leaves the sheet as it was.
pub fn lvs_set_node(
    sheet: &mut [u8],
    column: u32,
    row: u32,
    height: i32,
    x_slope: i32,
    y_slope: i32,
) -> u32
    ensures answer { result ≡ setting_refusal sheet.old column row (node height x_slope y_slope) }
    ensures sheet { sheet.new ≡ with_node sheet.old column row (node height x_slope y_slope) }
{
    refusal_number(light_sheet::set_node(sheet, column, row, height, x_slope, y_slope))
}

// Fills every slope of the sheet from its heights, with a stiffness from 0 to 64, and answers 0; or, refused (1 to 6, 12, 13), answers the number and leaves the
// sheet as it was.
pub fn lvs_fill_slopes(sheet: &mut [u8], stiffness: u32) -> u32
    ensures answer { result ≡ slope_refusal sheet.old stiffness }
    ensures sheet { sheet.new ≡ with_slopes sheet.old stiffness }
{
    refusal_number(light_sheet::fill_slopes(sheet, stiffness))
}

// Pools two sheets on the same lines into the target, each height and slope the sum of the two, and answers 0; or, refused (1 to 6 of the first sheet, 15, 16,
// 17, 11), answers the number and leaves the target as it was.
pub fn lvs_pool(first: &[u8], second: &[u8], target: &mut [u8]) -> u32
    ensures answer { result ≡ pool_refusal first.now second.now (length target.old) }
    ensures target { target.new ≡ with_pool first.now second.now target.old }
    ensures first { first.exit.now ≡ first.now }
    ensures second { second.exit.now ≡ second.now }
{
    refusal_number(light_sheet::pool(first, second, target))
}

// Reads at the pixel (x, y) into the first slots of `values`: kind 0 the level, one slot; 1 the tilt, two; 2 the bend, three; and answers 0. The slots
// behind keep their contents. Refused (1 to 6, 7, 9), it answers the number, and all three keep theirs. In C the slots are doubles; here they are their bits:
// the floats of a contract have one NaN, and a slot that is kept may hold any.
pub fn lvs_read(sheet: &[u8], x: u32, y: u32, kind: u32, values: &mut [u64; 3]) -> u32
    ensures answer { result ≡ (read sheet.now x y kind).number }
    ensures values { values.new ≡ over (bits (read sheet.now x y kind).values) values.old }
    ensures kept { sheet.exit.now ≡ sheet.now }
{
    slots::store(light_sheet::read(sheet, x, y, kind), values)
}

// Lists the bend (xx, xy, yy) from each piece that touches the pixel (x, y) in the first places of `bends`, in 1/64 grain per pixel per pixel: cells row by row,
// in each the pieces by number. Writes how many pieces there are to `pieces`, and answers 0. The places behind the list keep their contents. Refused (1 to 6, 7,
// 14), it answers the number, and both keep theirs.
pub fn lvs_bends(sheet: &[u8], x: u32, y: u32, bends: &mut [i64], pieces: &mut u32) -> u32
    ensures answer { result ≡ (counted sheet.now x y (length bends.old)).number }
    ensures bends { bends.new ≡ with_bends sheet.now x y bends.old }
    ensures pieces { pieces.new ≡ count_over (counted sheet.now x y (length bends.old)) pieces.old }
    ensures kept { sheet.exit.now ≡ sheet.now }
{
    match light_sheet::bends(sheet, x, y, bends) {
        Ok(count) => {
            *pieces = count;
            0
        }
        Err(refusal) => refusal.number(),
    }
}

// Fills the lent row with the levels at the pixel (x, y) and at those to its right, one for each slot, in grains, and answers 0; or, refused (1 to 6, 7, 8),
// answers the number and leaves the row as it was.
pub fn lvs_fill_run(sheet: &[u8], x: u32, y: u32, levels: &mut [i32]) -> u32
    ensures answer { result ≡ run_refusal sheet.now x y (length levels.old) }
    ensures levels { levels.new ≡ filled sheet.now x y levels.old }
    ensures kept { sheet.exit.now ≡ sheet.now }
{
    refusal_number(light_sheet::fill_run(sheet, x, y, levels))
}

// Writes the zoned level at the pixel (x, y), in grains, to `level`, and answers 0: the level, which each zone of the list that holds the pixel, in list order,
// raises to its floor if below, then lowers to its ceiling if above. Refused (1 to 6, 7, 18, 19), it answers the number, and `level` keeps its contents.
pub fn lvs_zoned_level(sheet: &[u8], zones: &[u8], x: u32, y: u32, level: &mut i32) -> u32
    ensures answer { result ≡ (zoned_answer sheet.now zones.now x y).number }
    ensures level { level.new ≡ level_over (zoned_answer sheet.now zones.now x y) level.old }
    ensures sheet { sheet.exit.now ≡ sheet.now }
    ensures zones { zones.exit.now ≡ zones.now }
{
    match light_sheet::zoned_level(sheet, zones, x, y) {
        Ok(grains) => {
            *level = grains;
            0
        }
        Err(refused) => refused.number(),
    }
}

// Fills the lent row with the zoned levels at the pixel (x, y) and at those to its right, one for each slot, in grains, and answers 0; or, refused (1 to 6, 7, 8,
// 18, 19), answers the number and leaves the row as it was.
pub fn lvs_fill_zoned_run(sheet: &[u8], zones: &[u8], x: u32, y: u32, levels: &mut [i32]) -> u32
    ensures answer { result ≡ zoned_run_refusal sheet.now zones.now x y (length levels.old) }
    ensures levels { levels.new ≡ zoned_filled sheet.now zones.now x y levels.old }
    ensures sheet { sheet.exit.now ≡ sheet.now }
    ensures zones { zones.exit.now ≡ zones.now }
{
    refusal_number(light_sheet::fill_zoned_run(sheet, zones, x, y, levels))
}
