// Division that rounds down, and the rounding rule, on 64-bit integers: numerators within 2⁶², denominators from 1 to 2³⁷.
#![tactic(auto)]

pub mod theorems;

ghost use Rattle.std.specs.Prelude.{◌≡◌, ◌^◌, pos, nat_abs, ◌+ℤ◌, ◌*ℤ◌, ◌≤ℤ◌, ◌<ℤ◌};
ghost use Rattle.integers.specs.Within.{◌within◌};
ghost use Rattle.integers.specs.Floor.{floor_div};
ghost use Rattle.integers.specs.Round.{round};
ghost use Rattle.integers.specs.Ratio.{Denominates, Ratio};
ghost use Rattle.integers.specs.Constants.{constants, InReach};

// n / d rounded down. Both are plain numbers here and below: callers have just computed them, and a type that holds `Ratio` would be made for one call.
pub fn floor_div(n: i64, d: i64) -> i64
    requires { Ratio n d }
    ensures { result ≡ floor_div n (nat_abs d) }
{
    // not by `div_euclid`, which looks at the sign of d too: the loop of `element_levels::fill_levels` then grows, and a row takes 3 to 5 % longer
    if n < 0 { -1 - (-1 - n) / d } else { n / d }
}

// n / d rounded by the rule.
pub fn round(n: i64, d: i64) -> i64
    requires { Ratio n d }
    ensures { result ≡ round n (nat_abs d) }
{
    let q = floor_div(n, d);
    nearest(q, n - q * d, d)
}

// A denominator d with the constants for rounding many numerators over it: n / d is about n · scale · inverse / 2⁶⁴.
// That they are its constants is no invariant of the type: for no slots `element_levels::fill_levels` takes any three numbers.
#[derive(Clone, Copy)]
pub struct Denominator {
    pub value: i64,
    pub scale: i64,
    pub inverse: i64,
}

impl Denominator {
    pub fn new(d: i64) -> Denominator
        requires { Denominates d }
        ensures { result ≡ constants d }
    {
        let scale = 137438953472 / d;
        let raised = d * scale;
        let value = below_38_bits(d);
        Denominator {
            value,
            scale,
            inverse: 4611686018427387904 / (raised / 4),
        }
    }

    // n / d rounded by the rule, for quotients within 2²⁴: a guess that is nearly always right, and the division where it is not.
    pub fn round_small(self, n: i64) -> i64
        requires { InReach n self }
        ensures { result ≡ round n (nat_abs self.value) }
    {
        let d = self.value;
        let q = (((n * self.scale) >> 27) * self.inverse) >> 37;
        let rest = n - q * d;
        if 0 <= rest && rest < d {
            nearest(q, rest, d)
        } else {
            round(n, d)
        }
    }
}

// d itself, which has at most 38 bits. The compiler sees it here, and so makes one test of 0 <= rest && rest < d.
fn below_38_bits(d: i64) -> i64
    requires { Denominates d }
    ensures { result ≡ d }
{
    (d as u64 % 274877906944) as i64
}

// q + rest / d rounded by the rule, for a rest from 0 to below d.
fn nearest(q: i64, rest: i64, d: i64) -> i64
    requires { (q within (2 ^ 62)) × Denominates d × (pos 0 ≤ℤ rest) × (rest <ℤ d) }
    ensures { result ≡ round (q *ℤ d +ℤ rest) (nat_abs d) }
{
    // as unsigned numbers, so that the comparison's carry is what is added
    if 2 * (rest as u64) < d as u64 {
        q
    } else {
        q + 1
    }
}
