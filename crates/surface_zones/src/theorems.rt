// Theorems that belong to no function. Each is the contract of one that returns 0, so that the gate asks for its proof.
ghost use Rattle.std.specs.Prelude.{◌≡◌};
ghost use Rattle.sheet_calls.specs.Rules.{RuleLaws};
ghost use Rattle.surface_zones.specs.Zoned.{ZonedInput, ZonedRunInput};
ghost use Rattle.surface_zones.specs.ZonedLaws.{ZonedLaws};
ghost use Rattle.surface_zones.specs.Examples.{Examples};

pub fn rule_laws() -> u64
    ensures { (result ≡ 0) × RuleLaws ZonedInput × RuleLaws ZonedRunInput }
{
    0
}

pub fn zoned_laws() -> u64
    ensures { (result ≡ 0) × ZonedLaws }
{
    0
}

pub fn examples() -> u64
    ensures { (result ≡ 0) × Examples }
{
    0
}
