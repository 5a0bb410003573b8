// Theorems that belong to no function. Each is the contract of one that returns 0, so that the gate asks for its proof.
ghost use Rattle.std.specs.Prelude.{◌≡◌};
ghost use Rattle.program_reach_line.specs.ReachLine.{input_room};
ghost use Rattle.program_reach_line.specs.ReachLineLaws.{ReachLineLaws};

use crate::INPUT_ROOM;

pub fn reach_line_laws() -> u64
    ensures { (result ≡ 0) × ReachLineLaws }
{
    0
}

// This one returns the code's constant instead: it is the one that the laws speak of.
pub fn input_room() -> usize
    ensures { result ≡ input_room }
{
    INPUT_ROOM
}
