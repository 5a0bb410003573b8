// The public calls, each with its record for a contract.
ghost use Rattle.sheet_layout.specs.Format.{node};
ghost use Rattle.sheet_calls.specs.Refused.{refusal_number};
ghost use Rattle.light_sheet_demands.specs.CallRecords.{Check, NodeRefusal, NodeCall, SetNode, FillSlopes, Pool, Read, ListBends, FillRun, ZonedLevel, FillZonedRun};

use sheet_calls::refusal::Refusal;
use surface_answers::Answer;

pub fn check(sheet: &[u8]) -> Result<(), Refusal>
    ensures { Check sheet.now (refusal_number result) sheet.exit.now }
{
    light_sheet::check(sheet)
}

pub fn node(sheet: &[u8], column: u32, row: u32) -> &[u8]
    ensures { NodeCall sheet.entry column row result sheet.exit.now }
{
    light_sheet::node(sheet, column, row)
}

pub fn node_refusal(sheet: &[u8], column: u32, row: u32) -> Result<(), Refusal>
    ensures { NodeRefusal sheet.now column row (refusal_number result) sheet.exit.now }
{
    light_sheet::node_refusal(sheet, column, row)
}

pub fn set_node(
    sheet: &mut [u8],
    column: u32,
    row: u32,
    height: i32,
    x_slope: i32,
    y_slope: i32,
) -> Result<(), Refusal>
    ensures { SetNode sheet.old column row (node height x_slope y_slope) (refusal_number result) sheet.new }
{
    light_sheet::set_node(sheet, column, row, height, x_slope, y_slope)
}

pub fn fill_slopes(sheet: &mut [u8], stiffness: u32) -> Result<(), Refusal>
    ensures { FillSlopes sheet.old stiffness (refusal_number result) sheet.new }
{
    light_sheet::fill_slopes(sheet, stiffness)
}

pub fn pool(first: &[u8], second: &[u8], target: &mut [u8]) -> Result<(), Refusal>
    ensures { Pool first.now second.now target.old (refusal_number result) target.new first.exit.now second.exit.now }
{
    light_sheet::pool(first, second, target)
}

pub fn read(sheet: &[u8], x: u32, y: u32, kind: u32) -> Answer
    ensures { Read sheet.now x y kind result sheet.exit.now }
{
    light_sheet::read(sheet, x, y, kind)
}

pub fn bends(sheet: &[u8], x: u32, y: u32, list: &mut [i64]) -> Result<u32, Refusal>
    ensures { ListBends sheet.now x y list.old result list.new sheet.exit.now }
{
    light_sheet::bends(sheet, x, y, list)
}

pub fn fill_run(sheet: &[u8], x: u32, y: u32, levels: &mut [i32]) -> Result<(), Refusal>
    ensures { FillRun sheet.now x y levels.old (refusal_number result) levels.new sheet.exit.now }
{
    light_sheet::fill_run(sheet, x, y, levels)
}

pub fn zoned_level(sheet: &[u8], zones: &[u8], x: u32, y: u32) -> Result<i32, Refusal>
    ensures { ZonedLevel sheet.now zones.now x y result sheet.exit.now zones.exit.now }
{
    light_sheet::zoned_level(sheet, zones, x, y)
}

pub fn fill_zoned_run(
    sheet: &[u8],
    zones: &[u8],
    x: u32,
    y: u32,
    levels: &mut [i32],
) -> Result<(), Refusal>
    ensures { FillZonedRun sheet.now zones.now x y levels.old (refusal_number result) levels.new sheet.exit.now zones.exit.now }
{
    light_sheet::fill_zoned_run(sheet, zones, x, y, levels)
}
