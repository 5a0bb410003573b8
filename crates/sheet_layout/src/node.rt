// A node's numbers, before they are stored.
ghost use Rattle.std.specs.Prelude.{◌≡◌};
ghost use Rattle.sheet_layout.specs.Format.{node, node_in};

use super::ranges::in_range;

// The height, in steps, and the slopes along x and y, in grains per pixel.
#[derive(Clone, Copy, PartialEq, Eq, Debug)]
pub struct Node {
    pub height: i32,
    pub x_slope: i32,
    pub y_slope: i32,
}

impl Node {
    // Whether each is in range.
    pub fn in_range(self) -> bool
        ensures { result ≡ node_in (node self.height self.x_slope self.y_slope) }
    {
        in_range(self.height) & in_range(self.x_slope) & in_range(self.y_slope)
    }
}
