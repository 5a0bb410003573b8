// The two axes of a sheet, and the lines along each.
ghost use Rattle.std.specs.Prelude.{◌≡◌, ◌≤◌, ◌<◌, length};
ghost use Rattle.sheet_layout.specs.Format.{header_size, nodes_offset};
ghost use Rattle.sheet_layout.specs.Axis.{start_of, lines_of, line_of};

use super::header::{columns, rows};
use super::{X_LINES_OFFSET, line_from, y_lines_offset};

// Along x lie the vertical lines, along y the horizontal ones.
#[derive(Clone, Copy, PartialEq, Eq, Debug)]
pub enum Axis {
    X,
    Y,
}

impl Axis {
    // Where the positions of its lines start.
    pub fn start(self, sheet: &[u8]) -> usize
        requires { header_size ≤ length sheet.now }
        ensures { (result ≡ start_of self sheet.now) × (result ≤ 518) }
    {
        match self {
            Axis::X => X_LINES_OFFSET,
            Axis::Y => y_lines_offset(sheet),
        }
    }

    // How many lines it has.
    pub fn lines(self, sheet: &[u8]) -> usize
        requires { header_size ≤ length sheet.now }
        ensures { (result ≡ lines_of self sheet.now) × (result < 256) }
    {
        match self {
            Axis::X => columns(sheet),
            Axis::Y => rows(sheet),
        }
    }

    // The position of its line k.
    pub fn line(self, sheet: &[u8], k: usize) -> u32
        requires { (nodes_offset sheet.now ≤ length sheet.now) × (k < lines_of self sheet.now) }
        ensures { (result ≡ line_of self sheet.now k) × (result < 65536) }
    {
        line_from(sheet, self.start(sheet), k)
    }
}
