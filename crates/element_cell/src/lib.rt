// The words of a cell: its pixels and four pieces, those that hold a pixel, the one that it is read from; in `specs` its sides, corner numbers, coefficients.
#![tactic(auto)]

pub mod lengths;

ghost use Rattle.std.specs.Prelude.{◌≡◌};
ghost use Rattle.element_sibson.specs.Piece.{triangle, piece_at};
ghost use Rattle.element_cell.specs.Cell.{pixel_point};
ghost use Rattle.element_cell.specs.Pieces.{piece_of, named};

use std::marker::Model;

// The pixel a and b pixels from the left and the top edge of a cell, its right and bottom edge included.
#[derive(Clone, Copy)]
pub struct Pixel {
    pub a: usize,
    pub b: usize,
    pub width: usize,
    pub height: usize,
}

impl Model for Pixel {
    ghost use Rattle.element_cell.specs.Cell.{Pixel, PixelInCell};

    ghost Value = { Pixel };

    ghost view = { λ p. record { a = p.a; b = p.b; width = p.width; height = p.height } };

    ghost invariant = { λ p. PixelInCell (record { a = p.a; b = p.b; width = p.width; height = p.height }) };

    ghost inverse = { λ p. record { a = p.a; b = p.b; width = p.width; height = p.height } };
}

// A cubic's ten coefficients, doubled, in the order of `listed`: of 1, r, s, r², rs, s², r³, r²s, rs² and s³. 64 bits are enough for them.
#[derive(Clone, Copy)]
pub struct Coefficients {
    pub doubled: [i64; 10],
}

impl Model for Coefficients {
    ghost use Rattle.std.specs.Prelude.{List, ℤ};
    ghost use Rattle.element_cell.specs.Coefficients.{Sized};

    ghost Value = { List ℤ };

    ghost view = { λ k. k.doubled };

    ghost invariant = { λ k. Sized k.doubled };

    ghost inverse = { λ k. record { doubled = k } };
}

#[derive(Clone, Copy, PartialEq, Eq, Debug)]
pub enum Piece {
    Top,
    Right,
    Bottom,
    Left,
}

// The lowest piece that holds the pixel.
pub fn piece_at(p: Pixel) -> Piece
    ensures { result ≡ named (piece_at (pixel_point p)) }
{
    // r, s and 1, times the cell's area
    let x = p.a * p.height;
    let y = p.b * p.width;
    let q = p.width * p.height;
    if y <= x {
        if x + y <= q {
            return Piece::Top;
        }
        return Piece::Right;
    }
    if q <= x + y {
        return Piece::Bottom;
    }
    Piece::Left
}

// Whether a piece holds the pixel, its borders included.
pub fn holds(p: Pixel, piece: Piece) -> bool
    ensures { result ≡ triangle (piece_of piece) (pixel_point p) }
{
    // r, s, 1 and r + s, times the cell's area
    let x = p.a * p.height;
    let y = p.b * p.width;
    let q = p.width * p.height;
    let sum = x + y;
    match piece {
        Piece::Top => (y <= x) & (sum <= q),
        Piece::Right => (y <= x) & (q <= sum),
        Piece::Bottom => (x <= y) & (q <= sum),
        Piece::Left => (x <= y) & (sum <= q),
    }
}
