// The call `read`: its line ends in the whole numbers before the division.
use super::lines::{Case, answer};
use std::io;
use std::num::{nearest_i64_to_f64, saturating_f64_to_i64};
use surface_answers::{Answer, BendReading, LevelReading, TiltReading};

// Those of level, tilt and bend.
pub fn divisors(rt: &impl Print) -> io::Result<()> {
    print!(rt; "divisors")?;
    let divisors = [
        LevelReading::DIVISOR,
        TiltReading::DIVISOR,
        BendReading::DIVISOR,
    ];
    whole_numbers(rt, &divisors, 1.0)
}

pub fn read(rt: &impl Print, case: Case<'_>, x: u32, y: u32, kind: u32) -> io::Result<()> {
    case.call_at(rt, "read", x, y)?;
    print!(rt; "{kind} ")?;
    match light_sheet::read(case.sheet, x, y, kind) {
        Answer::Level(level) => accepted(rt, &[level], LevelReading::DIVISOR),
        Answer::Tilt(x, y) => accepted(rt, &[x, y], TiltReading::DIVISOR),
        Answer::Bend(xx, xy, yy) => accepted(rt, &[xx, xy, yy], BendReading::DIVISOR),
        Answer::Refused(number) => refused(rt, number),
    }
}

fn accepted(rt: &impl Print, values: &[f64], divisor: f64) -> io::Result<()> {
    answer(rt, 0)?;
    whole_numbers(rt, values, divisor)
}

fn refused(rt: &impl Print, number: u32) -> io::Result<()> {
    answer(rt, number)?;
    println!(rt; "")
}

// The end of a line: of each value the whole number that was divided, or "inexact".
fn whole_numbers(rt: &impl Print, values: &[f64], divisor: f64) -> io::Result<()> {
    for v in values {
        match whole(*v, divisor) {
            Some(n) => print!(rt; " {n}")?,
            None => print!(rt; " inexact")?,
        }
    }
    println!(rt; "")
}

// The whole number that has v as its quotient; a negative zero is none.
fn whole(v: f64, divisor: f64) -> Option<i64> {
    let n = saturating_f64_to_i64(v * divisor);
    let is_quotient = nearest_i64_to_f64(n) / divisor == v;
    let is_negative_zero = v == 0.0 && 1.0 / v < 0.0;
    (is_quotient && !is_negative_zero).then_some(n)
}
