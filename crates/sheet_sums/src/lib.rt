// The sums of two sheets' node numbers: looked at, and written to a target. Both go through the numbers of all nodes in one loop, three a node.
#![tactic(auto)]

ghost use Rattle.std.specs.Prelude.{◌≡◌, not, ◌+◌, ◌*◌, ◌≤◌, ◌<◌, length};
ghost use Rattle.sheet_words.specs.Word.{bits_of, replaced};
ghost use Rattle.sheet_layout.specs.Some.{some};
ghost use Rattle.sheet_layout.specs.Format.{columns, rows, nodes_offset, slope_in};
ghost use Rattle.sheet_assembly.specs.Assembled.{in_order};
ghost use Rattle.sheet_pool.specs.Pool.{some_sum_out};
ghost use Rattle.sheet_calls.specs.OnSameLines.{OnSameLines};
ghost use Rattle.sheet_sums.specs.Sums.{sum_at, sum_bytes, Ranged, with_sums};

use sheet_layout::gathering::some;
use sheet_layout::ranges::word_in_range;
use sheet_layout::{node_count, nodes_offset};
use sheet_words::{put_word, word};

// Whether some sum is out of range. Both public calls take the sheets as they are lent; `Addends` holds what they share.
pub fn some_sum_out(first: &[u8], second: &[u8]) -> bool
    requires { OnSameLines first.now second.now }
    ensures { result ≡ some_sum_out first.now second.now }
{
    Addends::of(first, second).some_sum_out()
}

// Writes the sums to the target's nodes; what comes before them stays.
pub fn put_sums(first: &[u8], second: &[u8], target: &mut [u8])
    requires { OnSameLines first.now second.now × (length target.old ≡ length first.now) }
    ensures { target.new ≡ with_sums first.now second.now target.old }
{
    Addends::of(first, second).put_sums(target);
}

// The numbers of all nodes of two sheets on the same lines: `count` of each sheet, from index `start` on, in range.
#[derive(Clone, Copy)]
struct Addends<'a> {
    first: &'a [u8],
    second: &'a [u8],
    start: usize,
    count: usize,
    ghost of_first: { Ranged first.now start count },
    ghost of_second: { Ranged second.now start count },
}

impl<'a> Addends<'a> {
    fn of(first: &'a [u8], second: &'a [u8]) -> Addends<'a>
        requires { OnSameLines first.now second.now }
        ensures first { result.first ≡ first.entry }
        ensures second { result.second ≡ second.entry }
        ensures start { result.start ≡ nodes_offset first.now }
        ensures count { result.count ≡ 3 * (columns first.now * rows first.now) }
    {
        Addends {
            first,
            second,
            start: nodes_offset(first),
            count: 3 * node_count(first),
        }
    }

    // Whether one of the sums is out of range.
    fn some_sum_out(self) -> bool
        ensures { let s = self.entry in result ≡ some (λ k. not (slope_in (sum_at s.first.now s.second.now (s.start + 2 * k)))) s.count }
    {
        some(self.count, |k| !word_in_range(self.sum_bits(k)))
    }

    // Writes the sums to the target, from index `start` on.
    fn put_sums(self, target: &mut [u8])
        requires { self.start + 2 * self.count ≤ length target.old }
        ensures { let s = self.entry in target.new ≡ replaced target.old s.start (in_order (sum_bytes s.first.now s.second.now s.start) s.count) }
    {
        for k in 0..self.count {
            put_word(target, self.start + 2 * k, self.sum_bits(k));
        }
    }

    // The 16 bits of sum k: those of the two numbers added, around at 65,536. No sum of two in range needs more.
    fn sum_bits(self, k: usize) -> u32
        requires { k < self.count }
        ensures { let s = self.entry in (result ≡ bits_of (sum_at s.first.now s.second.now (s.start + 2 * k))) × (result < 65536) }
    {
        let at = self.start + 2 * k;
        // words are read and written in 32 bits, so `wrapping_add` would take three conversions
        (word(self.first, at) + word(self.second, at)) % 65536
    }
}
