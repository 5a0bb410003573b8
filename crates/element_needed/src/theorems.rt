// The theorem belongs to no function. It is the contract of one that returns 0, so that the gate asks for its proof.
ghost use Rattle.std.specs.Prelude.{◌≡◌};
ghost use Rattle.element_needed.specs.Needed.{Needed};

pub fn needed() -> u64
    ensures { (result ≡ 0) × Needed }
{
    0
}
