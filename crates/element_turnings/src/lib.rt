// Turnings of a cubic: its doubled coefficients, in the order 1, r, s, r², rs, s², r³, r²s, rs², s³, in other coordinates of the cell.
#![tactic(auto)]

pub mod theorems;

ghost use Rattle.std.specs.Prelude.{◌≡◌};
ghost use Rattle.element_sibson.specs.Element.{transposed, flipped, mirrored};
ghost use Rattle.element_cell.specs.Coefficients.{listed, halves, Sized};

// The cubic at (s, r).
pub fn transposed(k: [i64; 10]) -> [i64; 10]
    ensures { result ≡ listed (transposed (halves k)) }
{
    let [one, r, s, rr, rs, ss, rrr, rrs, rss, sss] = k;
    [one, s, r, ss, rs, rr, sss, rss, rrs, rrr]
}

// The cubic at (r, 1 − s).
pub fn flipped(k: [i64; 10]) -> [i64; 10]
    requires { Sized k }
    ensures { result ≡ listed (flipped (halves k)) }
{
    let [one, r, s, rr, rs, ss, rrr, rrs, rss, sss] = k;
    [
        one + s + ss + sss,
        r + rs + rss,
        -(s + 2 * ss + 3 * sss),
        rr + rrs,
        -(rs + 2 * rss),
        ss + 3 * sss,
        rrr,
        -rrs,
        rss,
        -sss,
    ]
}

// The cubic at (1 − r, s).
pub fn mirrored(k: [i64; 10]) -> [i64; 10]
    requires { Sized k }
    ensures { result ≡ listed (mirrored (halves k)) }
{
    transposed(flipped(transposed(k)))
}
