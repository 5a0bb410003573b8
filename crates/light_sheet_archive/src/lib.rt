// The archive for C and Rust: each call of `light_sheet_c` under its name for C, with the same clauses, and nothing else. A crate is a library for other crates or
// an archive, and not both. tests/statements holds each call to that of `light_sheet_c`, word for word; what a call does is said there and in
// include/light_sheet.h. A slice is a pointer and a length in C, an array a pointer.
#![tactic(auto)]

ghost use Rattle.std.specs.Prelude.{◌≡◌, length};
ghost use Rattle.sheet_layout.specs.Format.{node};
ghost use Rattle.sheet_calls.specs.Refusals.{check_refusal, lookup_refusal, setting_refusal, run_refusal};
ghost use Rattle.sheet_calls.specs.Calls.{looked_up, with_node};
ghost use Rattle.sheet_slopes.specs.Slopes.{slope_refusal, with_slopes};
ghost use Rattle.sheet_pool.specs.Pool.{pool_refusal, with_pool};
ghost use Rattle.surface_of_sheet.specs.Read.{read};
ghost use Rattle.surface_of_sheet.specs.Run.{filled};
ghost use Rattle.surface_bends.specs.Bends.{counted, with_bends};
ghost use Rattle.surface_zones.specs.Zoned.{zoned_answer, zoned_run_refusal, zoned_filled};
ghost use Rattle.light_sheet_c.specs.Values.{bits, over, count_over, level_over};

#[unsafe(no_mangle)]
pub extern "C" fn lvs_check(sheet: &[u8]) -> u32
    ensures answer { result ≡ check_refusal sheet.now }
    ensures kept { sheet.exit.now ≡ sheet.now }
{
    light_sheet_c::lvs_check(sheet)
}

#[unsafe(no_mangle)]
pub extern "C" fn lvs_node_refusal(sheet: &[u8], column: u32, row: u32) -> u32
    ensures answer { result ≡ lookup_refusal sheet.now column row }
    ensures kept { sheet.exit.now ≡ sheet.now }
{
    light_sheet_c::lvs_node_refusal(sheet, column, row)
}

#[unsafe(no_mangle)]
pub extern "C" fn lvs_node_offset(sheet: &[u8], column: u32, row: u32) -> usize
    ensures answer { result ≡ (looked_up sheet.now column row).start }
    ensures kept { sheet.exit.now ≡ sheet.now }
{
    light_sheet_c::lvs_node_offset(sheet, column, row)
}

#[unsafe(no_mangle)]
pub extern "C" fn lvs_set_node(
    sheet: &mut [u8],
    column: u32,
    row: u32,
    height: i32,
    x_slope: i32,
    y_slope: i32,
) -> u32
    ensures answer { result ≡ setting_refusal sheet.old column row (node height x_slope y_slope) }
    ensures sheet { sheet.new ≡ with_node sheet.old column row (node height x_slope y_slope) }
{
    light_sheet_c::lvs_set_node(sheet, column, row, height, x_slope, y_slope)
}

#[unsafe(no_mangle)]
pub extern "C" fn lvs_fill_slopes(sheet: &mut [u8], stiffness: u32) -> u32
    ensures answer { result ≡ slope_refusal sheet.old stiffness }
    ensures sheet { sheet.new ≡ with_slopes sheet.old stiffness }
{
    light_sheet_c::lvs_fill_slopes(sheet, stiffness)
}

#[unsafe(no_mangle)]
pub extern "C" fn lvs_pool(first: &[u8], second: &[u8], target: &mut [u8]) -> u32
    ensures answer { result ≡ pool_refusal first.now second.now (length target.old) }
    ensures target { target.new ≡ with_pool first.now second.now target.old }
    ensures first { first.exit.now ≡ first.now }
    ensures second { second.exit.now ≡ second.now }
{
    light_sheet_c::lvs_pool(first, second, target)
}

#[unsafe(no_mangle)]
pub extern "C" fn lvs_read(sheet: &[u8], x: u32, y: u32, kind: u32, values: &mut [u64; 3]) -> u32
    ensures answer { result ≡ (read sheet.now x y kind).number }
    ensures values { values.new ≡ over (bits (read sheet.now x y kind).values) values.old }
    ensures kept { sheet.exit.now ≡ sheet.now }
{
    light_sheet_c::lvs_read(sheet, x, y, kind, values)
}

#[unsafe(no_mangle)]
pub extern "C" fn lvs_bends(
    sheet: &[u8],
    x: u32,
    y: u32,
    bends: &mut [i64],
    pieces: &mut u32,
) -> u32
    ensures answer { result ≡ (counted sheet.now x y (length bends.old)).number }
    ensures bends { bends.new ≡ with_bends sheet.now x y bends.old }
    ensures pieces { pieces.new ≡ count_over (counted sheet.now x y (length bends.old)) pieces.old }
    ensures kept { sheet.exit.now ≡ sheet.now }
{
    light_sheet_c::lvs_bends(sheet, x, y, bends, pieces)
}

#[unsafe(no_mangle)]
pub extern "C" fn lvs_fill_run(sheet: &[u8], x: u32, y: u32, levels: &mut [i32]) -> u32
    ensures answer { result ≡ run_refusal sheet.now x y (length levels.old) }
    ensures levels { levels.new ≡ filled sheet.now x y levels.old }
    ensures kept { sheet.exit.now ≡ sheet.now }
{
    light_sheet_c::lvs_fill_run(sheet, x, y, levels)
}

#[unsafe(no_mangle)]
pub extern "C" fn lvs_zoned_level(
    sheet: &[u8],
    zones: &[u8],
    x: u32,
    y: u32,
    level: &mut i32,
) -> u32
    ensures answer { result ≡ (zoned_answer sheet.now zones.now x y).number }
    ensures level { level.new ≡ level_over (zoned_answer sheet.now zones.now x y) level.old }
    ensures sheet { sheet.exit.now ≡ sheet.now }
    ensures zones { zones.exit.now ≡ zones.now }
{
    light_sheet_c::lvs_zoned_level(sheet, zones, x, y, level)
}

#[unsafe(no_mangle)]
pub extern "C" fn lvs_fill_zoned_run(
    sheet: &[u8],
    zones: &[u8],
    x: u32,
    y: u32,
    levels: &mut [i32],
) -> u32
    ensures answer { result ≡ zoned_run_refusal sheet.now zones.now x y (length levels.old) }
    ensures levels { levels.new ≡ zoned_filled sheet.now zones.now x y levels.old }
    ensures sheet { sheet.exit.now ≡ sheet.now }
    ensures zones { zones.exit.now ≡ zones.now }
{
    light_sheet_c::lvs_fill_zoned_run(sheet, zones, x, y, levels)
}
