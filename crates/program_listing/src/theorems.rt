// Theorems that belong to no function. Each is the contract of one that returns 0, so that the gate asks for its proof.
ghost use Rattle.std.specs.Prelude.{◌≡◌};
ghost use Rattle.program_listing.specs.Listing.{input_room};
ghost use Rattle.program_listing.specs.ListingLaws.{ListingLaws};
ghost use Rattle.program_listing.specs.Examples.{Examples};

use crate::INPUT_ROOM;

pub fn listing_laws() -> u64
    ensures { (result ≡ 0) × ListingLaws }
{
    0
}

pub fn examples() -> u64
    ensures { (result ≡ 0) × Examples }
{
    0
}

// This one returns the code's constant instead: it is the one that the laws speak of.
pub fn input_room() -> usize
    ensures { result ≡ input_room }
{
    INPUT_ROOM
}
