// The calls for C and Rust, each with its record for a contract.
ghost use Rattle.sheet_layout.specs.Format.{node};
ghost use Rattle.light_sheet_demands.specs.CallRecords.{Check, NodeRefusal, NodeOffset, SetNode, FillSlopes, Pool, ReadInto, BendsInto, FillRun, FillZonedRun, ZonedLevelInto};

pub fn check(sheet: &[u8]) -> u32
    ensures { Check sheet.now result sheet.exit.now }
{
    light_sheet_c::lvs_check(sheet)
}

pub fn node_refusal(sheet: &[u8], column: u32, row: u32) -> u32
    ensures { NodeRefusal sheet.now column row result sheet.exit.now }
{
    light_sheet_c::lvs_node_refusal(sheet, column, row)
}

pub fn node_offset(sheet: &[u8], column: u32, row: u32) -> usize
    ensures { NodeOffset sheet.now column row result sheet.exit.now }
{
    light_sheet_c::lvs_node_offset(sheet, column, row)
}

pub fn set_node(
    sheet: &mut [u8],
    column: u32,
    row: u32,
    height: i32,
    x_slope: i32,
    y_slope: i32,
) -> u32
    ensures { SetNode sheet.old column row (node height x_slope y_slope) result sheet.new }
{
    light_sheet_c::lvs_set_node(sheet, column, row, height, x_slope, y_slope)
}

pub fn fill_slopes(sheet: &mut [u8], stiffness: u32) -> u32
    ensures { FillSlopes sheet.old stiffness result sheet.new }
{
    light_sheet_c::lvs_fill_slopes(sheet, stiffness)
}

pub fn pool(first: &[u8], second: &[u8], target: &mut [u8]) -> u32
    ensures { Pool first.now second.now target.old result target.new first.exit.now second.exit.now }
{
    light_sheet_c::lvs_pool(first, second, target)
}

pub fn read(sheet: &[u8], x: u32, y: u32, kind: u32, values: &mut [u64; 3]) -> u32
    ensures { ReadInto sheet.now x y kind values.old result values.new sheet.exit.now }
{
    light_sheet_c::lvs_read(sheet, x, y, kind, values)
}

pub fn bends(sheet: &[u8], x: u32, y: u32, bends: &mut [i64], pieces: &mut u32) -> u32
    ensures { BendsInto sheet.now x y bends.old pieces.old result bends.new pieces.new sheet.exit.now }
{
    light_sheet_c::lvs_bends(sheet, x, y, bends, pieces)
}

pub fn fill_run(sheet: &[u8], x: u32, y: u32, levels: &mut [i32]) -> u32
    ensures { FillRun sheet.now x y levels.old result levels.new sheet.exit.now }
{
    light_sheet_c::lvs_fill_run(sheet, x, y, levels)
}

pub fn zoned_level(sheet: &[u8], zones: &[u8], x: u32, y: u32, level: &mut i32) -> u32
    ensures { ZonedLevelInto sheet.now zones.now x y level.old result level.new sheet.exit.now zones.exit.now }
{
    light_sheet_c::lvs_zoned_level(sheet, zones, x, y, level)
}

pub fn fill_zoned_run(sheet: &[u8], zones: &[u8], x: u32, y: u32, levels: &mut [i32]) -> u32
    ensures { FillZonedRun sheet.now zones.now x y levels.old result levels.new sheet.exit.now zones.exit.now }
{
    light_sheet_c::lvs_fill_zoned_run(sheet, zones, x, y, levels)
}
