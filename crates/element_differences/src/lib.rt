// The differences of the cubic along a row of pixels: from them its values to the right follow by additions.
#![tactic(auto)]

pub mod theorems;

ghost use Rattle.std.specs.Prelude.{◌≡◌, ◌^◌, ◌≤◌};
ghost use Rattle.element_row_cubic.specs.Row.{reach};
ghost use Rattle.element_differences.specs.Differences.{differences, stepped, SumsFit};

use element_cell::lengths::length;
use element_row_cubic::at_offset;

// The value at an offset and the first, second and third difference there.
pub fn differences(row: [i64; 4], offset: usize) -> [i64; 4]
    requires { (offset ≤ 64) × (reach row ≤ 2 ^ 62) }
    ensures { result ≡ differences row offset }
{
    let a = length(offset);
    let next = a + 1;
    [
        at_offset(row, offset),
        row[1] + row[2] * (a + next) + row[3] * (3 * a * next + 1),
        2 * row[2] + 6 * row[3] * next,
        6 * row[3],
    ]
}

// The same an offset further on.
pub fn stepped(z: [i64; 4]) -> [i64; 4]
    requires { SumsFit z }
    ensures { result ≡ stepped z }
{
    [z[0] + z[1], z[1] + z[2], z[2] + z[3], z[3]]
}
