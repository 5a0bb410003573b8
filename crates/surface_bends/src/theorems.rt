// Theorems that belong to no function. Each is the contract of one that returns 0, so that the gate asks for its proof.
ghost use Rattle.std.specs.Prelude.{◌≡◌};
ghost use Rattle.sheet_calls.specs.Rules.{RuleLaws};
ghost use Rattle.surface_bends.specs.Bends.{BendsInput};
ghost use Rattle.surface_bends.specs.BendLaws.{TouchingLaws, BendLaws};
ghost use Rattle.surface_bends.specs.Examples.{Examples};

pub fn rule_laws() -> u64
    ensures { (result ≡ 0) × RuleLaws BendsInput }
{
    0
}

pub fn touching_laws() -> u64
    ensures { (result ≡ 0) × TouchingLaws }
{
    0
}

pub fn bend_laws() -> u64
    ensures { (result ≡ 0) × BendLaws }
{
    0
}

pub fn examples() -> u64
    ensures { (result ≡ 0) × Examples }
{
    0
}
