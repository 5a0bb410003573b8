// Where a pixel lies on a sheet: outside the mesh, or in cells, at offsets in each; and the place that it is read at.
#![tactic(auto)]

pub mod spot;

ghost use Rattle.std.specs.Prelude.{◌≡◌, ◌-◌};
ghost use Rattle.sheet_layout.specs.Format.{columns, rows, line_x, line_y};
ghost use Rattle.sheet_layout.specs.Axis.{line_of, lines_of};
ghost use Rattle.sheet_calls.specs.Refusals.{outside};
ghost use Rattle.sheet_calls.specs.WellFormed.{Inside};
ghost use Rattle.surface_of_sheet.specs.Place.{cells_along, highest_along, place};
ghost use Rattle.surface_places.specs.Found.{Mesh, Between, CellTouches, off_axis, cells_of, found, in_cell, pixel_in, holding};

use element_cell::{Piece, Pixel, piece_at};
use sheet_calls::accepted::Sheet;
use sheet_layout::axis::Axis;
use sheet_words::word;

// The lowest and the highest cell along an axis that touch a position. They differ on inner lines alone.
#[derive(Clone, Copy)]
pub struct Cells {
    pub lowest: usize,
    pub highest: usize,
}

// The columns and the rows of cells that touch a pixel.
#[derive(Clone, Copy)]
pub struct Found {
    pub columns: Cells,
    pub rows: Cells,
}

// A cell, by its column and row, that touches a pixel; the pixel in that cell; and a piece of it.
#[derive(Clone, Copy)]
pub struct Place {
    pub column: usize,
    pub row: usize,
    pub pixel: Pixel,
    pub piece: Piece,
}

// In a cell along one axis, the offset of a position from the cell's first line, and the cell's size.
#[derive(Clone, Copy)]
struct OnAxis {
    offset: usize,
    size: usize,
}

// The lines of a sheet, as far as finding a pixel asks, whatever its nodes.
#[derive(Clone, Copy)]
pub struct Lines<'a> {
    pub bytes: &'a [u8],
    ghost mesh: { Mesh bytes.now },
}

impl<'a> Lines<'a> {
    // Those of an accepted sheet.
    pub fn of(sheet: Sheet<'a>) -> Lines<'a>
        ensures { result.bytes ≡ sheet.entry.bytes }
    {
        Lines { bytes: sheet.bytes }
    }

    // Whether the pixel lies outside the mesh.
    pub fn outside(self, x: u32, y: u32) -> bool
        ensures { result ≡ outside self.entry.bytes.now x y }
    {
        self.off_axis(Axis::X, x) | self.off_axis(Axis::Y, y)
    }

    // The cells that touch a pixel of the mesh.
    pub fn find(self, x: u32, y: u32) -> Found
        requires { Inside self.bytes.now x y }
        ensures { result ≡ found self.entry.bytes.now x y }
    {
        Found {
            columns: self.cells_along(Axis::X, x),
            rows: self.cells_along(Axis::Y, y),
        }
    }

    // The place that a pixel is read at: in the cell furthest to the right and below of those that touch it, on its piece with the lowest number.
    pub fn read_place(self, cells: Found, x: u32, y: u32) -> Place
        requires { Inside self.bytes.now x y × (cells ≡ found self.bytes.now x y) }
        ensures { result ≡ holding self.entry.bytes.now (place self.entry.bytes.now x y) }
    {
        let column = cells.columns.highest;
        let row = cells.rows.highest;
        let pixel = self.pixel_in(column, row, x, y);
        Place {
            column,
            row,
            pixel,
            piece: piece_at(pixel),
        }
    }

    // A pixel in a cell that touches it. That it does is a clause: a type of it would hold lines, cell and pixel for this one call.
    pub fn pixel_in(self, column: usize, row: usize, x: u32, y: u32) -> Pixel
        requires { CellTouches (line_x self.bytes.now) (columns self.bytes.now) column x × CellTouches (line_y self.bytes.now) (rows self.bytes.now) row y }
        ensures { result ≡ pixel_in self.entry.bytes.now column row x y }
    {
        let across = self.in_cell(Axis::X, column, x);
        let down = self.in_cell(Axis::Y, row, y);
        Pixel {
            a: across.offset,
            b: down.offset,
            width: across.size,
            height: down.size,
        }
    }

    // Whether a position lies before an axis's first line or beyond its last.
    fn off_axis(self, axis: Axis, position: u32) -> bool
        ensures { result ≡ off_axis (line_of axis self.entry.bytes.now) (lines_of axis self.entry.bytes.now) position }
    {
        let last = axis.lines(self.bytes) - 1;
        (position < axis.line(self.bytes, 0)) | (axis.line(self.bytes, last) < position)
    }

    // Where a position lies in a cell that touches it.
    fn in_cell(self, axis: Axis, cell: usize, position: u32) -> OnAxis
        requires { CellTouches (line_of axis self.bytes.now) (lines_of axis self.bytes.now) cell position }
        ensures { result ≡ in_cell (line_of axis self.entry.bytes.now) cell position }
    {
        let before = axis.line(self.bytes, cell);
        let after = axis.line(self.bytes, cell + 1);
        OnAxis {
            offset: (position - before) as usize,
            size: (after - before) as usize,
        }
    }

    // The lowest and the highest cell that touch a position between the first and the last line of an axis.
    fn cells_along(self, axis: Axis, position: u32) -> Cells
        requires { Between (line_of axis self.bytes.now) (lines_of axis self.bytes.now) position }
        ensures { result ≡ cells_of (cells_along (line_of axis self.entry.bytes.now) (lines_of axis self.entry.bytes.now - 2) position) }
    {
        let highest = self.highest_along(axis, position);
        // On the line that the highest cell starts at, the cell before it touches the position too, if there is one.
        if 0 < highest && position <= axis.line(self.bytes, highest) {
            return Cells {
                lowest: highest - 1,
                highest,
            };
        }
        Cells {
            lowest: highest,
            highest,
        }
    }

    // The last cell that starts at or before the position: its number is how many of the inner lines do.
    fn highest_along(self, axis: Axis, position: u32) -> usize
        requires { Between (line_of axis self.bytes.now) (lines_of axis self.bytes.now) position }
        ensures { result ≡ highest_along (line_of axis self.entry.bytes.now) (lines_of axis self.entry.bytes.now - 2) position }
    {
        let (lines, _) = self.bytes[axis.start(self.bytes)..].as_chunks::<2>();
        let inner = &lines[1..axis.lines(self.bytes) - 1];
        inner.partition_point(|line| word(line, 0) <= position)
    }
}
