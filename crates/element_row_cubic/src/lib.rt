// The level along a row of pixels: over 2 W³ H³ it is a cubic in the offset from the cell's left edge.
// Width and height come by themselves: a struct of the two would be taken apart in each of these functions.
#![tactic(auto)]

pub mod theorems;

ghost use Rattle.std.specs.Prelude.{◌≡◌, ◌*◌, ◌^◌, ◌≤◌, pos};
ghost use Rattle.integers.specs.Within.{◌within◌};
ghost use Rattle.element_cell.specs.Cell.{Side, cell};
ghost use Rattle.element_cell.specs.Corners.{largest};
ghost use Rattle.element_cell.specs.Coefficients.{size, halves};
ghost use Rattle.element_row_cubic.specs.Row.{down, along_row, at_offset, cubes_of, reach};

use element_cell::Coefficients;
use element_cell::lengths::{cube, length, square};

// Its four coefficients, b pixels from the top edge. The row has no offset of its own, so it is not given as a pixel.
pub fn along_row(k: Coefficients, b: usize, width: usize, height: usize) -> [i64; 4]
    requires { Side width × Side height × (b ≤ height) }
    ensures is { result ≡ along_row (cell width height) (halves k) b }
    ensures reaches { reach result ≤ 2 ^ 62 }
{
    let k = k.doubled;
    [
        cube(width) * down([k[0], k[2], k[5], k[9]], b, height),
        square(width) * down([k[1], k[4], k[8], 0], b, height),
        length(width) * down([k[3], k[7], 0, 0], b, height),
        down([k[6], 0, 0, 0], b, height),
    ]
}

// Its value at an offset, by Horner's rule. How far the cubic reaches is asked here and is no type's: where `element_levels::fill_levels` fills nothing, it takes any.
pub fn at_offset(row: [i64; 4], offset: usize) -> i64
    requires { (reach row ≤ 2 ^ 62) × (offset ≤ 64) }
    ensures { result ≡ at_offset row offset }
{
    let a = length(offset);
    row[0] + a * (row[1] + a * (row[2] + a * row[3]))
}

// 2 W³ H³, which is the cell's and no pixel's
pub fn denominator(width: usize, height: usize) -> i64
    requires { Side width × Side height }
    ensures { result ≡ pos (2 * (cubes_of (cell width height)).number) }
{
    2 * (cube(width) * cube(height))
}

// c₀ + c₁ s + c₂ s² + c₃ s³ at s = b/H, times H³
fn down(c: [i64; 4], b: usize, height: usize) -> i64
    requires { (size c ≤ 256 * largest) × Side height × (b ≤ height) }
    ensures is { result ≡ down c b height }
    ensures small { result within (2 ^ 44) }
{
    let h = length(height);
    let v = length(b);
    c[0] * (h * h * h) + c[1] * (v * h * h) + c[2] * (v * v * h) + c[3] * (v * v * v)
}
