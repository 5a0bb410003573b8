// Theorems that belong to no function. Each is the contract of one that returns 0, so that the gate asks for its proof.
ghost use Rattle.std.specs.Prelude.{◌≡◌};
ghost use Rattle.sheet_calls.specs.Rules.{RuleLaws};
ghost use Rattle.sheet_slopes.specs.Slopes.{SlopeInput};
ghost use Rattle.sheet_slopes.specs.SlopeLaws.{SlopeLaws};
ghost use Rattle.sheet_slopes.specs.Examples.{Examples};

pub fn rule_laws() -> u64
    ensures { (result ≡ 0) × RuleLaws SlopeInput }
{
    0
}

pub fn slope_laws() -> u64
    ensures { (result ≡ 0) × SlopeLaws }
{
    0
}

pub fn examples() -> u64
    ensures { (result ≡ 0) × Examples }
{
    0
}
