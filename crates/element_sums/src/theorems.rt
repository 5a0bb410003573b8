// Theorems that belong to no function. Each is the contract of one that returns 0, so that the gate asks for its proof.
ghost use Rattle.std.specs.Prelude.{◌≡◌};
ghost use Rattle.element_sums.specs.Sums.{SumLaws};

pub fn sum_laws() -> u64
    ensures { (result ≡ 0) × SumLaws }
{
    0
}
