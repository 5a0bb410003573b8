// The checks that every call makes of its sheet: which of the conditions 1 to 6 is the first to hold.
#![tactic(auto)]

ghost use Rattle.std.specs.Prelude.{◌≡◌, IfOk, false, ◌+◌, ◌*◌, ◌≤◌, ◌<◌, length};
ghost use Rattle.sheet_layout.specs.Axis.{lines_of, line_of};
ghost use Rattle.sheet_layout.specs.Format.{header_size, nodes_offset, stated_size};
ghost use Rattle.sheet_layout.specs.Some.{some};
ghost use Rattle.sheet_calls.specs.Refusals.{other_mark, other_version, other_counts, other_length, wrong_step, wrong_line, wrong_lines, wrong_nodes, sheet_refusal, check_refusal};
ghost use Rattle.sheet_calls.specs.Refused.{refusal_number};

use sheet_calls::accepted::Sheet;
use sheet_calls::refusal::Refusal;
use sheet_layout::axis::Axis;
use sheet_layout::gathering::some;
use sheet_layout::header::{
    HEADER_SIZE, columns, count_in, marked, reserved, rows, supported, version,
};
use sheet_layout::ranges::some_node_out;
use sheet_layout::stated_size;

// No line lies further away.
const FURTHEST: u32 = 4096;

// No two neighbouring lines lie further apart.
const WIDEST: u32 = 64;

// Ok where the sheet is accepted, else the first condition that holds.
pub fn sheet_refusal(sheet: &[u8]) -> Result<(), Refusal>
    ensures { refusal_number result ≡ sheet_refusal sheet.now }
{
    if other_mark(sheet) {
        return Err(Refusal::OtherMark);
    }
    if other_version(sheet) {
        return Err(Refusal::OtherVersion);
    }
    if other_counts(sheet) {
        return Err(Refusal::OtherCounts);
    }
    body_refusal(sheet)
}

// The sheet, where it is accepted, else the first condition that holds.
pub fn accepted(sheet: &[u8]) -> Result<Sheet<'_>, Refusal>
    ensures refusal { refusal_number result ≡ sheet_refusal sheet.now }
    ensures bytes { IfOk result (λ s. s.bytes ≡ sheet.entry) }
{
    sheet_refusal(sheet)?;
    Ok(Sheet { bytes: sheet })
}

// What the call `check` answers, which 01 gives rules of its own. Other calls ask `sheet_refusal`.
pub fn check(sheet: &[u8]) -> Result<(), Refusal>
    ensures { refusal_number result ≡ check_refusal sheet.now }
{
    sheet_refusal(sheet)
}

// The checks behind those of the header.
fn body_refusal(sheet: &[u8]) -> Result<(), Refusal>
    requires { (other_mark sheet.now ≡ false) × (other_version sheet.now ≡ false) × (other_counts sheet.now ≡ false) }
    ensures { refusal_number result ≡ sheet_refusal sheet.now }
{
    if other_length(sheet) {
        return Err(Refusal::OtherLength);
    }
    if wrong_lines(sheet) {
        return Err(Refusal::WrongLines);
    }
    if wrong_nodes(sheet) {
        return Err(Refusal::WrongNodes);
    }
    Ok(())
}

#[tactic(auto, unfolding(sheet_calls::specs::Refusals::other_mark))]
fn other_mark(sheet: &[u8]) -> bool
    ensures { result ≡ other_mark sheet.now }
{
    if sheet.len() < HEADER_SIZE {
        return true;
    }
    !marked(sheet)
}

#[tactic(auto, unfolding(sheet_calls::specs::Refusals::other_version))]
fn other_version(sheet: &[u8]) -> bool
    requires { header_size ≤ length sheet.now }
    ensures { result ≡ other_version sheet.now }
{
    !supported(version(sheet))
}

#[tactic(auto, unfolding(sheet_calls::specs::Refusals::other_counts))]
fn other_counts(sheet: &[u8]) -> bool
    requires { header_size ≤ length sheet.now }
    ensures { result ≡ other_counts sheet.now }
{
    !count_in(columns(sheet)) | !count_in(rows(sheet)) | (reserved(sheet) != 0)
}

#[tactic(auto, unfolding(sheet_calls::specs::Refusals::other_length))]
fn other_length(sheet: &[u8]) -> bool
    requires { header_size ≤ length sheet.now }
    ensures { result ≡ other_length sheet.now }
{
    sheet.len() != stated_size(sheet)
}

#[tactic(auto, unfolding(sheet_calls::specs::Refusals::wrong_lines))]
fn wrong_lines(sheet: &[u8]) -> bool
    requires { length sheet.now ≡ stated_size sheet.now }
    ensures { result ≡ wrong_lines sheet.now }
{
    wrong_axis(sheet, Axis::X) | wrong_axis(sheet, Axis::Y)
}

// Whether one of an axis's lines is wrong.
fn wrong_axis(sheet: &[u8], axis: Axis) -> bool
    requires { nodes_offset sheet.now ≤ length sheet.now }
    ensures { result ≡ some (wrong_line (line_of axis sheet.now)) (lines_of axis sheet.now) }
{
    some(axis.lines(sheet), |k| wrong_line(sheet, axis, k))
}

#[tactic(auto, unfolding(sheet_calls::specs::Refusals::wrong_line))]
fn wrong_line(sheet: &[u8], axis: Axis, k: usize) -> bool
    requires { (nodes_offset sheet.now ≤ length sheet.now) × (k < lines_of axis sheet.now) }
    ensures { result ≡ wrong_line (line_of axis sheet.now) k }
{
    let position = axis.line(sheet, k);
    if k == 0 {
        FURTHEST < position
    } else {
        wrong_step(axis.line(sheet, k - 1), position)
    }
}

#[tactic(auto, unfolding(sheet_calls::specs::Refusals::wrong_step))]
fn wrong_step(before: u32, position: u32) -> bool
    requires { before < 65536 }
    ensures { result ≡ wrong_step before position }
{
    (FURTHEST < position) | (position <= before) | (before + WIDEST < position)
}

#[tactic(auto, unfolding(sheet_calls::specs::Refusals::wrong_nodes))]
fn wrong_nodes(sheet: &[u8]) -> bool
    requires { length sheet.now ≡ stated_size sheet.now }
    ensures { result ≡ wrong_nodes sheet.now }
{
    some_node_out(sheet)
}
