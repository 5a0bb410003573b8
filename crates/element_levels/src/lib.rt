// The levels of a cubic along a row of pixels, stored one by one: the only store of a run.
#![tactic(auto)]

ghost use Rattle.std.specs.Prelude.{◌≡◌, ◌+◌, ◌≤◌, nat_abs, length};
ghost use Rattle.integers.specs.Round.{round};
ghost use Rattle.integers.specs.Stepwise.{steps, starting_at};
ghost use Rattle.element_row_cubic.specs.Row.{at_offset};
ghost use Rattle.element_levels.specs.Needs.{LevelFits, FitsAlong};

use integers::Denominator;

// Fills `count` slots of the row from index `at` on with the levels of a cubic along the row, from an offset on. Three additions lead from a pixel's value to
// the next one's. The whole row is lent, not these slots alone: it is the row of which each turn is one step (`RowGrows`).
pub fn fill_levels(
    row: &mut [i32],
    at: usize,
    count: usize,
    cubic: [i64; 4],
    offset: usize,
    d: Denominator,
)
    requires { FitsAlong cubic offset count d × (at + count ≤ length row.old) }
    ensures { row.new ≡ steps (starting_at at (λ k. round (at_offset cubic (offset + k)) (nat_abs d.value))) at count row.old }
{
    // of no slots nothing is asked, so the cubic may be too large for its differences
    if count == 0 {
        return;
    }
    let mut z = element_differences::differences(cubic, offset);
    for k in 0..count {
        row[at + k] = rounded_level(z[0], d);
        z = element_differences::stepped(z);
    }
}

// One level: a numerator over the denominator.
fn rounded_level(n: i64, d: Denominator) -> i32
    requires { LevelFits n d }
    ensures { result ≡ round n (nat_abs d.value) }
{
    d.round_small(n) as i32
}
