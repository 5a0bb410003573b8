// The customer's three demands, and the requests of 02, each one theorem. A theorem is the contract of a function that returns 0, so that the gate asks for its
// proof. `light_sheet_ties` shows that the calls meet the records which they speak of.
#![tactic(auto)]

ghost use Rattle.std.specs.Prelude.{◌≡◌};
ghost use Rattle.light_sheet_demands.specs.Demands.{DemandOne, DemandTwo, DemandThree};
ghost use Rattle.light_sheet_demands.specs.Slopes.{SlopeFilling};
ghost use Rattle.light_sheet_demands.specs.Bends.{BothSides};
ghost use Rattle.light_sheet_demands.specs.Growing.{RowGrows};
ghost use Rattle.light_sheet_demands.specs.Pooling.{SheetsPooled};
ghost use Rattle.light_sheet_demands.specs.Reach.{NodeReach};
ghost use Rattle.light_sheet_demands.specs.Zones.{ScreenZones};

pub fn demand_one() -> u64
    ensures { (result ≡ 0) × DemandOne }
{
    0
}

pub fn demand_two() -> u64
    ensures { (result ≡ 0) × DemandTwo }
{
    0
}

pub fn demand_three() -> u64
    ensures { (result ≡ 0) × DemandThree }
{
    0
}

pub fn slope_filling() -> u64
    ensures { (result ≡ 0) × SlopeFilling }
{
    0
}

pub fn both_sides() -> u64
    ensures { (result ≡ 0) × BothSides }
{
    0
}

pub fn row_grows() -> u64
    ensures { (result ≡ 0) × RowGrows }
{
    0
}

pub fn sheets_pooled() -> u64
    ensures { (result ≡ 0) × SheetsPooled }
{
    0
}

pub fn node_reach() -> u64
    ensures { (result ≡ 0) × NodeReach }
{
    0
}

pub fn screen_zones() -> u64
    ensures { (result ≡ 0) × ScreenZones }
{
    0
}
