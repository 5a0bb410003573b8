// Two sheets pooled into a target: all sums are looked at before the first byte is written.
#![tactic(auto)]

ghost use Rattle.std.specs.Prelude.{◌≡◌, ◌≤◌, length, take};
ghost use Rattle.sheet_words.specs.Word.{replaced};
ghost use Rattle.sheet_layout.specs.Axis.{lines_of, line_of};
ghost use Rattle.sheet_layout.specs.Format.{header_size, nodes_offset};
ghost use Rattle.sheet_calls.specs.Refused.{refusal_number};
ghost use Rattle.sheet_pool.specs.Pool.{other_along, other_lines, pool_refusal, with_pool};

use sheet_calls::accepted::Sheet;
use sheet_calls::refusal::Refusal;
use sheet_checking::accepted;
use sheet_layout::axis::Axis;
use sheet_layout::gathering::some;
use sheet_layout::nodes_offset;
use sheet_sums::{put_sums, some_sum_out};

// Writes the pool of the two sheets to the target; or, refused, leaves the target as it was.
pub fn pool(first: &[u8], second: &[u8], target: &mut [u8]) -> Result<(), Refusal>
    ensures answer { refusal_number result ≡ pool_refusal first.now second.now (length target.old) }
    ensures target { target.new ≡ with_pool first.now second.now target.old }
{
    pool_refusal(first, second, target.len())?;
    copy_lines(first, target);
    put_sums(first, second, target);
    Ok(())
}

// Ok where the two sheets can be pooled into a target of this size, of which nothing else is asked, else the first condition that holds.
#[tactic(auto, using(crate::proofs::Answers::both_accepted), unfolding(sheet_pool::specs::Pool::other_target))]
fn pool_refusal(first: &[u8], second: &[u8], size: usize) -> Result<(), Refusal>
    ensures { refusal_number result ≡ pool_refusal first.now second.now size }
{
    let one = accepted(first)?;
    let Ok(other) = accepted(second) else {
        return Err(Refusal::SecondRefused);
    };
    if other_lines(one, other) {
        return Err(Refusal::OtherLines);
    }
    if size != first.len() {
        return Err(Refusal::OtherSize);
    }
    if some_sum_out(first, second) {
        return Err(Refusal::WrongNumbers);
    }
    Ok(())
}

// Whether the sheets' lines differ, in number or in a position.
#[tactic(auto, unfolding(sheet_pool::specs::Pool::other_lines))]
fn other_lines(first: Sheet<'_>, second: Sheet<'_>) -> bool
    ensures { result ≡ other_lines first.entry.bytes.now second.entry.bytes.now }
{
    other_along(first, second, Axis::X) || other_along(first, second, Axis::Y)
}

// The same of the lines along an axis.
#[tactic(auto, using(sheet_calls::proofs::WellFormed::header_there, sheet_calls::proofs::WellFormed::lines_there), unfolding(sheet_pool::specs::Pool::other_along))]
fn other_along(first: Sheet<'_>, second: Sheet<'_>, axis: Axis) -> bool
    ensures { let a = first.entry.bytes.now in let b = second.entry.bytes.now in result ≡ other_along (line_of axis a) (lines_of axis a) (line_of axis b) (lines_of axis b) }
{
    let count = axis.lines(first.bytes);
    if axis.lines(second.bytes) != count {
        return true;
    }
    some(
        count,
        |k| axis.line(second.bytes, k) != axis.line(first.bytes, k),
    )
}

// Copies the header and the lines to the target's start.
fn copy_lines(first: &[u8], target: &mut [u8])
    requires { (header_size ≤ length first.now) × (nodes_offset first.now ≤ length first.now) × (nodes_offset first.now ≤ length target.old) }
    ensures { target.new ≡ replaced target.old 0 (take (nodes_offset first.now) first.now) }
{
    // Not by `copy_from_slice`: the archive would need `memmove`, and it needs no name of the C library.
    for k in 0..nodes_offset(first) {
        target[k] = first[k];
    }
}
