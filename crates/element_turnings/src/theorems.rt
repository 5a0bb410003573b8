// The theorem belongs to no function. It is the contract of one that returns 0, so that the gate asks for its proof.
ghost use Rattle.std.specs.Prelude.{◌≡◌};
ghost use Rattle.element_turnings.specs.Joined.{Joined};

pub fn joined() -> u64
    ensures { (result ≡ 0) × Joined }
{
    0
}
