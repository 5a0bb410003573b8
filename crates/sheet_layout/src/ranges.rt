// The range of a node's numbers: whether all of a sheet's nodes are in range, and whether a new number is. Heights and slopes have the same range.
ghost use Rattle.std.specs.Prelude.{◌≡◌, not, ◌+◌, ◌*◌, ◌≤◌, ◌<◌, length};
ghost use Rattle.sheet_words.specs.Word.{word_at, signed};
ghost use Rattle.sheet_layout.specs.Some.{some};
ghost use Rattle.sheet_layout.specs.Format.{slope_in, stated_size, some_node_out};

use super::gathering::some;
use super::{node_count, nodes_offset};
use sheet_words::word;

// Whether some node of the sheet is out of range.
pub fn some_node_out(sheet: &[u8]) -> bool
    requires { stated_size sheet.now ≤ length sheet.now }
    ensures { result ≡ some_node_out sheet.now }
{
    some_word_out(sheet, nodes_offset(sheet), 3 * node_count(sheet))
}

// Whether one of the `count` signed numbers from index `start` on is out of range. No early exit: the compiler may look at several at once.
fn some_word_out(sheet: &[u8], start: usize, count: usize) -> bool
    requires { start + 2 * count ≤ length sheet.now }
    ensures { result ≡ some (λ k. not (slope_in (signed (word_at sheet.now (start + 2 * k))))) count }
{
    some(count, |k| !word_in_range(word(sheet, start + 2 * k)))
}

// Of the 16 bits of a signed number: up to 4,095, or from 65,536 − 4,095 on.
pub fn word_in_range(bits: u32) -> bool
    requires { bits < 65536 }
    ensures { result ≡ slope_in (signed bits) }
{
    (bits <= 4095) | (61441 <= bits)
}

// Whether a node's new number is in range.
pub fn in_range(x: i32) -> bool
    ensures { result ≡ slope_in x }
{
    (-4095..=4095).contains(&x)
}
