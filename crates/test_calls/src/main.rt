// The readings' divisors on a line, then the calls of a light sheet on the cases of standard input, one line each: the call as in
// tests/vectors/calls.txt, "->" and its number; for a lookup also the bytes that it hands back, for a setting the bytes of the sheet that it changes,
// for a reading the whole numbers before its division, for a run its levels. The input and the expected output are from tools/test_calls_expected.py.
// A case is three numbers of 16 bits (the length of its name, that of its sheet, how many calls), the name, the sheet, and 21 bytes for each call: its
// letter and five numbers of 32 bits (column, row, height, x-slope, y-slope; of a reading x, y, kind; of a run x, y, how many slots). Numbers have
// their low byte first.
#![tactic(auto)]

mod input;
mod lines;
mod readings;
mod runs;

use bounded_input::read_full;
use lines::{Case, answer};
use sheet_calls::refusal::refusal_number;
use std::io::Read;
use std::{array, io};

fn main(rt: HostRuntime) -> io::Result<()> {
    let mut input = rt.stdin();
    readings::divisors(&rt)?;
    for _ in 0..4096 {
        if !case(&rt, &mut input)? {
            break;
        }
    }
    Ok(())
}

// One case, or false where the input has ended.
fn case(rt: &impl Print, input: &mut impl Read) -> io::Result<bool> {
    let mut head = [0u8; 6];
    if read_full(input, &mut head) < head.len() {
        return Ok(false);
    }
    let [name_size, sheet_size, calls]: [u16; 3] = array::from_fn(|k| {
        let at = 2 * k;
        u16::from_le_bytes([head[at], head[at + 1]])
    });
    let mut name = [0u8; 64];
    let mut sheet = [0u8; 26000];
    let mut copy = [0u8; 26000];
    let case = Case {
        name: input::part(input, u32::from(name_size), &mut name),
        sheet: input::part(input, u32::from(sheet_size), &mut sheet),
    };
    for _ in 0..calls {
        make_call(rt, input, case, &mut copy)?;
    }
    Ok(true)
}

// Reads a call and makes it.
fn make_call(
    rt: &impl Print,
    input: &mut impl Read,
    case: Case<'_>,
    copy: &mut [u8],
) -> io::Result<()> {
    let mut call = [0u8; 21];
    read_full(input, &mut call);
    let numbers: [u32; 5] = array::from_fn(|k| {
        let at = 1 + 4 * k;
        u32::from_le_bytes([call[at], call[at + 1], call[at + 2], call[at + 3]])
    });
    let [x, y, third, _, _] = numbers;
    match call[0] {
        b'c' => check(rt, case),
        b'n' => node(rt, case, x, y),
        b's' => set_node(rt, case, copy, numbers),
        b'r' => readings::read(rt, case, x, y, third),
        b'f' => runs::fill_run(rt, case, x, y, third),
        _ => Ok(()),
    }
}

fn check(rt: &impl Print, case: Case<'_>) -> io::Result<()> {
    case.call(rt, "check")?;
    answer(rt, refusal_number(light_sheet::check(case.sheet)))?;
    println!(rt; "")
}

fn node(rt: &impl Print, case: Case<'_>, column: u32, row: u32) -> io::Result<()> {
    case.call_at(rt, "node", column, row)?;
    let refusal = light_sheet::node_refusal(case.sheet, column, row);
    answer(rt, refusal_number(refusal))?;
    handed_back(rt, light_sheet::node(case.sheet, column, row))?;
    println!(rt; "")
}

// Sets the node in a fresh copy of the sheet.
fn set_node(rt: &impl Print, case: Case<'_>, copy: &mut [u8], numbers: [u32; 5]) -> io::Result<()> {
    let [column, row, height, x_slope, y_slope] = numbers;
    let [height, x_slope, y_slope] = [height, x_slope, y_slope].map(|n| n.cast_signed());
    case.call_at(rt, "set_node", column, row)?;
    print!(rt; "{height} {x_slope} {y_slope} ")?;
    let set = input::copy(case.sheet, copy);
    let outcome = light_sheet::set_node(set, column, row, height, x_slope, y_slope);
    answer(rt, refusal_number(outcome))?;
    changes(rt, case.sheet, set)?;
    println!(rt; "")
}

// A part's length and bytes.
fn handed_back(rt: &impl Print, part: &[u8]) -> io::Result<()> {
    let size = part.len();
    print!(rt; " {size} bytes")?;
    for byte in part {
        print!(rt; " {byte}")?;
    }
    Ok(())
}

// Each byte that differs after the call, as index=value.
fn changes(rt: &impl Print, before: &[u8], after: &[u8]) -> io::Result<()> {
    for (index, (old, new)) in before.iter().zip(after).enumerate() {
        if old != new {
            print!(rt; " {index}={new}")?;
        }
    }
    Ok(())
}
