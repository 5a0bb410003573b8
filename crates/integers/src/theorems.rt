// Theorems that belong to no function. Each is the contract of one that returns 0, so that the gate asks for its proof.
ghost use Rattle.std.specs.Prelude.{◌≡◌};
ghost use Rattle.integers.specs.Floor.{FloorLaws};
ghost use Rattle.integers.specs.Round.{RoundingLaws};
ghost use Rattle.integers.specs.RoundedSums.{RoundedSums};
ghost use Rattle.integers.specs.Stepwise.{StepwiseLaws};

pub fn floor_laws() -> u64
    ensures { (result ≡ 0) × FloorLaws }
{
    0
}

pub fn rounding_laws() -> u64
    ensures { (result ≡ 0) × RoundingLaws }
{
    0
}

pub fn rounded_sums() -> u64
    ensures { (result ≡ 0) × RoundedSums }
{
    0
}

pub fn stepwise_laws() -> u64
    ensures { (result ≡ 0) × StepwiseLaws }
{
    0
}
