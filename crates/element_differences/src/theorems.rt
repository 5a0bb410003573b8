// A theorem that belongs to no function is the contract of one that returns 0, so that the gate asks for its proof.
ghost use Rattle.std.specs.Prelude.{◌≡◌};
ghost use Rattle.element_differences.specs.Differences.{DifferenceLaws};

pub fn difference_laws() -> u64
    ensures { (result ≡ 0) × DifferenceLaws }
{
    0
}
