// Polynomials of degree 2 and 1, as the derivatives of a cubic are, by their doubled coefficients; and their values at a pixel.
ghost use Rattle.std.specs.Prelude.{◌≡◌, ◌*◌, ◌^◌, List, ℤ};
ghost use Rattle.integers.specs.Within.{◌within◌};
ghost use Rattle.element_cell.specs.Cell.{pixel_cell};
ghost use Rattle.element_cell.specs.Corners.{largest};
ghost use Rattle.element_evaluation.specs.Needs.{EachWithin};
ghost use Rattle.element_evaluation.specs.LowDegree.{scaled_of, linear_at, quadratic_at};

use element_cell::Pixel;
use element_cell::lengths::length;
use std::marker::Model;

// c₀ + c₁ r + c₂ s + c₃ r² + c₄ rs + c₅ s², the first derivative of a cubic whose coefficients are sized.
#[derive(Clone, Copy)]
pub struct Quadratic {
    pub c: [i64; 6],
}

impl Model for Quadratic {
    ghost Value = { List ℤ };

    ghost view = { λ f. f.c };

    ghost invariant = { λ f. EachWithin (3 * (256 * largest)) f.c };

    ghost inverse = { λ c. record { c = c } };
}

impl Quadratic {
    // Its value at the pixel, times W² H².
    pub fn at(self, p: Pixel) -> i64
        ensures is { result ≡ quadratic_at self (scaled_of (pixel_cell p) p.a p.b) }
        ensures small { result within (2 ^ 62) }
    {
        let c = self.c;
        let [q, x, y] = scaled_point(p);
        q * (c[0] * q + c[1] * x + c[2] * y) + (x * (c[3] * x + c[4] * y) + c[5] * (y * y))
    }
}

// c₀ + c₁ r + c₂ s, the second. A type of its own: a common one would share the field alone, and neither its bound nor its value.
#[derive(Clone, Copy)]
pub struct Linear {
    pub c: [i64; 3],
}

impl Model for Linear {
    ghost Value = { List ℤ };

    ghost view = { λ f. f.c };

    ghost invariant = { λ f. EachWithin (6 * (256 * largest)) f.c };

    ghost inverse = { λ c. record { c = c } };
}

impl Linear {
    // Its value at the pixel, times W H.
    pub fn at(self, p: Pixel) -> i64
        ensures is { result ≡ linear_at self (scaled_of (pixel_cell p) p.a p.b) }
        ensures small { result within (2 ^ 56) }
    {
        let c = self.c;
        let [q, x, y] = scaled_point(p);
        c[0] * q + c[1] * x + c[2] * y
    }
}

// 1, r and s at the pixel, times W H
fn scaled_point(p: Pixel) -> [i64; 3]
    ensures is { result ≡ scaled_of (pixel_cell p) p.a p.b }
    ensures small { EachWithin 4096 result }
{
    let w = length(p.width);
    let h = length(p.height);
    [w * h, length(p.a) * h, length(p.b) * w]
}
