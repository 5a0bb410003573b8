// The workers of a run and of the program `reach`, each with its record for a contract.
ghost use Rattle.std.specs.Prelude.{◌≤◌, length};
ghost use Rattle.sheet_calls.specs.WellFormed.{OnMesh};
ghost use Rattle.light_sheet_demands.specs.CallRecords.{RunSteps, ReachOf};

use sheet_calls::refusal::Refusal;
use sheet_reach::OuterLines;

pub fn run(sheet: &[u8], x: u32, y: u32, row: &mut [i32], budget: usize)
    requires { OnMesh sheet.now x y budget × (budget ≤ length row.old) }
    ensures { RunSteps sheet.now x y row.old budget row.new sheet.exit.now }
{
    surface_runs::run(sheet, x, y, row, budget)
}

pub fn reach(input: &[u8]) -> Result<OuterLines, Refusal>
    ensures { ReachOf input.now result input.exit.now }
{
    sheet_reaching::reach(input)
}
