// The levels along a row of pixels in one cell, by spans: one for each piece that the row crosses, at most three.
#![tactic(auto)]

pub mod theorems;

ghost use Rattle.std.specs.Prelude.{◌≡◌, ◌+◌, ◌-◌, ◌/◌, ◌^◌, ◌≤◌, ◌<◌, min, length};
ghost use Rattle.integers.specs.Stepwise.{steps, starting_at};
ghost use Rattle.element_sibson.specs.Element.{sibson};
ghost use Rattle.element_cell.specs.Cell.{pixel_cell};
ghost use Rattle.element_cell.specs.Corners.{corners, largest, AllWithin};
ghost use Rattle.element_cell.specs.Pieces.{piece_of};
ghost use Rattle.element_row_cubic.specs.Row.{along_row};
ghost use Rattle.element_spans.specs.Span.{to_right, cell_level, ceiling};
ghost use Rattle.element_spans.specs.Ends.{upper_half, middle_of, ends_of};
ghost use Rattle.element_spans.specs.Needs.{FitsCell};

use element_cell::{Piece, Pixel};
use element_levels::fill_levels;
use integers::Denominator;

// Where a row of pixels leaves the left piece of a cell, and the one between left and right: the first offsets beyond them; and whether it lies in the upper
// half, where that one is the top piece, not the bottom one. That is a bool, no case of its own: both ends are there either way.
#[derive(Clone, Copy)]
struct Ends {
    left: usize,
    middle: usize,
    upper: bool,
}

// Fills `count` slots of the row from index `at` on: with the level at a pixel of a cell, and those to its right in the same cell, span by span.
// The whole row is lent, as `fill_levels` asks. What the corner numbers are within is a clause here and below, no type's invariant: 01 names their plain array.
pub fn fill_cell(row: &mut [i32], at: usize, count: usize, n: [[i64; 3]; 4], first: Pixel)
    requires { AllWithin largest (corners n) × FitsCell first count × (at + count ≤ length row.old) }
    ensures { row.new ≡ steps (starting_at at (λ k. cell_level (corners n) (to_right first k))) at count row.old }
{
    let a = first.a;
    let d = Denominator::new(element_row_cubic::denominator(first.width, first.height));
    let ends = span_ends(first);
    let left = before(ends.left, a, count);
    let both = before(ends.middle, a, count);
    fill_levels(row, at, left, cubic(n, Piece::Left, first), a, d);
    fill_levels(
        row,
        at + left,
        both - left,
        middle_cubic(n, ends.upper, first),
        a + left,
        d,
    );
    fill_levels(
        row,
        at + both,
        count - both,
        cubic(n, Piece::Right, first),
        a + both,
        d,
    );
}

// One division gives both ends: the diagonals cross the row as far from the right edge as from the left.
fn span_ends(p: Pixel) -> Ends
    ensures { result ≡ ends_of p }
{
    // s times the cell's area, and that over the height, rounded down and up: the compiler makes one division of them
    let y = p.b * p.width;
    let down = y / p.height;
    let up = y.div_ceil(p.height);
    if 2 * p.b <= p.height {
        return Ends {
            left: up,
            middle: p.width - up + 1,
            upper: true,
        };
    }
    Ends {
        left: p.width - down,
        middle: up,
        upper: false,
    }
}

// How many of `count` pixels, from offset a on, lie before an end.
fn before(end: usize, a: usize, count: usize) -> usize
    ensures { result ≡ min count (end - a) }
{
    count.min(end.saturating_sub(a))
}

// The cubic of a piece along the pixel's row.
fn cubic(n: [[i64; 3]; 4], piece: Piece, p: Pixel) -> [i64; 4]
    requires { AllWithin largest (corners n) }
    ensures { result ≡ along_row (pixel_cell p) (sibson (corners n) (piece_of piece)) p.b }
{
    element_row_cubic::along_row(
        element_pieces::coefficients(n, piece),
        p.b,
        p.width,
        p.height,
    )
}

// The same of the piece between left and right. Each is named by itself, so that the compiler folds its weights.
fn middle_cubic(n: [[i64; 3]; 4], upper: bool, p: Pixel) -> [i64; 4]
    requires { AllWithin largest (corners n) × (upper ≡ upper_half p) }
    ensures { result ≡ along_row (pixel_cell p) (sibson (corners n) (middle_of p)) p.b }
{
    if upper {
        return cubic(n, Piece::Top, p);
    }
    cubic(n, Piece::Bottom, p)
}
