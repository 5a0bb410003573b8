// Theorems that belong to no function. Each is the contract of one that returns 0, so that the gate asks for its proof.
ghost use Rattle.std.specs.Prelude.{◌≡◌};
ghost use Rattle.sheet_layout.specs.EncodingLaws.{EncodingLaws};
ghost use Rattle.sheet_layout.specs.Neighbours.{NeighbourLaws};
ghost use Rattle.sheet_layout.specs.Examples.{Examples};

pub fn encoding_laws() -> u64
    ensures { (result ≡ 0) × EncodingLaws }
{
    0
}

pub fn neighbour_laws() -> u64
    ensures { (result ≡ 0) × NeighbourLaws }
{
    0
}

pub fn examples() -> u64
    ensures { (result ≡ 0) × Examples }
{
    0
}
