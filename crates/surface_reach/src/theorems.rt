// Theorems that belong to no function. Each is the contract of one that returns 0, so that the gate asks for its proof.
ghost use Rattle.std.specs.Prelude.{◌≡◌};
ghost use Rattle.surface_reach.specs.NudgedLevels.{NudgedLevels};

pub fn nudged_levels() -> u64
    ensures { (result ≡ 0) × NudgedLevels }
{
    0
}
