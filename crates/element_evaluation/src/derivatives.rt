// The derivatives of a cubic: a first one has degree 2, a second one degree 1.
ghost use Rattle.std.specs.Prelude.{◌≡◌, take};
ghost use Rattle.element_sibson.specs.Cubic.{by_r, by_s};
ghost use Rattle.element_cell.specs.Coefficients.{listed, halves};

use super::low_degree::{Linear, Quadratic};
use element_cell::Coefficients;

// One function for all five would need tables of which coefficients it takes and how many times, and is no plainer.
pub fn by_r(k: Coefficients) -> Quadratic
    ensures { result ≡ take 6 (listed (by_r (halves k))) }
{
    let k = k.doubled;
    Quadratic {
        c: [k[1], 2 * k[3], k[4], 3 * k[6], 2 * k[7], k[8]],
    }
}

pub fn by_s(k: Coefficients) -> Quadratic
    ensures { result ≡ take 6 (listed (by_s (halves k))) }
{
    let k = k.doubled;
    Quadratic {
        c: [k[2], k[4], 2 * k[5], k[7], 2 * k[8], 3 * k[9]],
    }
}

pub fn by_rr(k: Coefficients) -> Linear
    ensures { result ≡ take 3 (listed (by_r (by_r (halves k)))) }
{
    let k = k.doubled;
    Linear {
        c: [2 * k[3], 2 * (3 * k[6]), 2 * k[7]],
    }
}

pub fn by_rs(k: Coefficients) -> Linear
    ensures { result ≡ take 3 (listed (by_s (by_r (halves k)))) }
{
    let k = k.doubled;
    Linear {
        c: [k[4], 2 * k[7], 2 * k[8]],
    }
}

pub fn by_ss(k: Coefficients) -> Linear
    ensures { result ≡ take 3 (listed (by_s (by_s (halves k)))) }
{
    let k = k.doubled;
    Linear {
        c: [2 * k[5], 2 * k[8], 2 * (3 * k[9])],
    }
}
