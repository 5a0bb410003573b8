// Runs the three ways to divide on numbers about ties, signs, the reach of the guess and the ends of the range. The expected output is from
// exact arithmetic on fractions. A line: numerator, denominator, rounded down, rounded, and, where the guess reaches, rounded by prepared constants.
#![tactic(auto)]

ghost use Rattle.integers.specs.Ratio.{Ratio};

use integers::Denominator;
use std::io;

const NUMERATORS: [i64; 28] = [
    0,
    1,
    -1,
    2,
    -2,
    3,
    -3,
    5,
    -5,
    7,
    -7,
    511,
    -511,
    262080,
    -262080,
    16777216,
    -16777216,
    16777217,
    -16777217,
    8589934591,
    -8589934593,
    206158430208,
    -206158430208,
    1152921504606846975,
    2305843009213693952,
    -2305843009213693953,
    4611686018427387904,
    -4611686018427387904,
];

const DENOMINATORS: [i64; 10] = [
    1,
    2,
    3,
    4,
    6,
    1024,
    524288,
    16777217,
    16313934834,
    137438953472,
];

fn main(rt: HostRuntime) -> io::Result<()> {
    for d in DENOMINATORS {
        for n in NUMERATORS {
            line(&rt, n, d)?;
        }
    }
    Ok(())
}

// A line for a numerator and a denominator in range.
fn line(rt: &impl Print, n: i64, d: i64) -> io::Result<()> {
    if d < 1 || 137438953472 < d {
        return Ok(());
    }
    if n < -4611686018427387904 || 4611686018427387904 < n {
        return Ok(());
    }
    results(rt, n, d)
}

fn results(rt: &impl Print, n: i64, d: i64) -> io::Result<()>
    requires { Ratio n d }
{
    let floor = integers::floor_div(n, d);
    let rounded = integers::round(n, d);
    print!(rt; "{n} {d} {floor} {rounded}")?;
    let reach = 16777216 * d;
    if -reach <= n && n <= reach {
        let small = Denominator::new(d).round_small(n);
        print!(rt; " {small}")?;
    }
    println!(rt; "")
}
