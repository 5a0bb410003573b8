// Theorems that belong to no function. Each is the contract of one that returns 0, so that the gate asks for its proof. That a list of rules on bytes gives the
// first to hold is proved in `sheet_calls`.
ghost use Rattle.std.specs.Prelude.{◌≡◌};
ghost use Rattle.sheet_reach.specs.ReachLaws.{ReachLaws};
ghost use Rattle.sheet_reach.specs.Examples.{Examples};

pub fn reach_laws() -> u64
    ensures { (result ≡ 0) × ReachLaws }
{
    0
}

pub fn examples() -> u64
    ensures { (result ≡ 0) × Examples }
{
    0
}
