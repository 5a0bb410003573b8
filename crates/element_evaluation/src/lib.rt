// The six readings of a piece at a pixel, from its doubled coefficients: cells 1 to 64 pixels wide and high, corner numbers within 262,080.
// The cubic and the pixel stay two: `element_bends` reads one pixel by several cubics.
#![tactic(auto)]

pub mod derivatives;
pub mod low_degree;

ghost use Rattle.std.specs.Prelude.{◌≡◌};
ghost use Rattle.element_cell.specs.Cell.{pixel_cell, pixel_point};
ghost use Rattle.element_cell.specs.Coefficients.{halves};
ghost use Rattle.element_readings.specs.Reading.{level_of, tilt_x_of, tilt_y_of, bend_xx_of, bend_xy_of, bend_yy_of};

use derivatives::{by_r, by_rr, by_rs, by_s, by_ss};
use element_cell::lengths::{cube, length, square};
use element_cell::{Coefficients, Pixel};

// The level, in grains.
pub fn level_of(k: Coefficients, p: Pixel) -> i64
    ensures { result ≡ level_of (pixel_cell p) (halves k) (pixel_point p) }
{
    let cubic = element_row_cubic::along_row(k, p.b, p.width, p.height);
    let n = element_row_cubic::at_offset(cubic, p.a);
    integers::round(n, element_row_cubic::denominator(p.width, p.height))
}

// The tilt along x, and along y, in grains per pixel: `at` has the derivative times 2 W² H², as its coefficients are doubled.
// These and the bends differ in the derivative and in the powers of W and H: one function that took both would be no more than `round`.
pub fn tilt_x_of(k: Coefficients, p: Pixel) -> i64
    ensures { result ≡ tilt_x_of (pixel_cell p) (halves k) (pixel_point p) }
{
    let n = by_r(k).at(p);
    integers::round(n, 2 * (cube(p.width) * square(p.height)))
}

pub fn tilt_y_of(k: Coefficients, p: Pixel) -> i64
    ensures { result ≡ tilt_y_of (pixel_cell p) (halves k) (pixel_point p) }
{
    let n = by_s(k).at(p);
    integers::round(n, 2 * (square(p.width) * cube(p.height)))
}

// The bend: along x, mixed, and along y, in 1/64 grain per pixel per pixel: `at` has the second derivative times 2 W H.
pub fn bend_xx_of(k: Coefficients, p: Pixel) -> i64
    ensures { result ≡ bend_xx_of (pixel_cell p) (halves k) (pixel_point p) }
{
    let n = 64 * by_rr(k).at(p);
    integers::round(n, 2 * (cube(p.width) * length(p.height)))
}

pub fn bend_xy_of(k: Coefficients, p: Pixel) -> i64
    ensures { result ≡ bend_xy_of (pixel_cell p) (halves k) (pixel_point p) }
{
    let n = 64 * by_rs(k).at(p);
    integers::round(n, 2 * (square(p.width) * square(p.height)))
}

pub fn bend_yy_of(k: Coefficients, p: Pixel) -> i64
    ensures { result ≡ bend_yy_of (pixel_cell p) (halves k) (pixel_point p) }
{
    let n = 64 * by_ss(k).at(p);
    integers::round(n, 2 * (length(p.width) * cube(p.height)))
}
