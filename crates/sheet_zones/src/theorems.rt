// Theorems that belong to no function. Each is the contract of one that returns 0, so that the gate asks for its proof.
ghost use Rattle.std.specs.Prelude.{◌≡◌};
ghost use Rattle.sheet_zones.specs.ZoneLaws.{ListLaws, LimitLaws};
ghost use Rattle.sheet_zones.specs.Examples.{Examples};

pub fn list_laws() -> u64
    ensures { (result ≡ 0) × ListLaws }
{
    0
}

pub fn limit_laws() -> u64
    ensures { (result ≡ 0) × LimitLaws }
{
    0
}

pub fn examples() -> u64
    ensures { (result ≡ 0) × Examples }
{
    0
}
