// A cell's twelve corner numbers: corners 00, 10, 01 and 11, of each the height and the slopes per cell width and per cell height.
// Their bound, AllWithin, stays a clause and no type's fact, since 01 names their plain array.
#![tactic(auto)]

ghost use Rattle.std.specs.Prelude.{◌≡◌};
ghost use Rattle.integers.specs.Within.{◌within◌};
ghost use Rattle.element_sibson.specs.Element.{corner_numbers, swap, negate_y, exchanged, top_down, left_right};
ghost use Rattle.element_cell.specs.Cell.{Side, cell};
ghost use Rattle.element_cell.specs.Corners.{jet_of, corners, three, arrays, numbers_of, largest, AllWithin, Measured};

use element_cell::lengths::length;

// From the nodes' heights in grains and slopes in grains per pixel. Width and height come by themselves: a struct of the two would be taken apart at once.
pub fn corner_numbers(nodes: [[i64; 3]; 4], width: usize, height: usize) -> [[i64; 3]; 4]
    requires { Measured (corners nodes) × Side width × Side height }
    ensures { result ≡ arrays (corner_numbers (cell width height) (corners nodes)) }
{
    // each by its index: what is asked of a corner stands in its own clause
    [
        scaled(nodes[0], width, height),
        scaled(nodes[1], width, height),
        scaled(nodes[2], width, height),
        scaled(nodes[3], width, height),
    ]
}

// Corners 10 and 01 exchanged, x-slopes exchanged with y-slopes.
pub fn exchanged(n: [[i64; 3]; 4]) -> [[i64; 3]; 4]
    ensures { result ≡ arrays (exchanged (corners n)) }
{
    [swap(n[0]), swap(n[2]), swap(n[1]), swap(n[3])]
}

// Top and bottom corners exchanged, y-slopes negated.
pub fn top_down(n: [[i64; 3]; 4]) -> [[i64; 3]; 4]
    requires { AllWithin largest (corners n) }
    ensures { result ≡ arrays (top_down (corners n)) }
{
    [
        negate_y(n[2]),
        negate_y(n[3]),
        negate_y(n[0]),
        negate_y(n[1]),
    ]
}

// Left and right corners exchanged, x-slopes negated: top and bottom of the exchanged numbers.
pub fn left_right(n: [[i64; 3]; 4]) -> [[i64; 3]; 4]
    requires { AllWithin largest (corners n) }
    ensures { result ≡ arrays (left_right (corners n)) }
{
    let turned = top_down(exchanged(n));
    exchanged(turned)
}

// One corner: the x-slope times the width, the y-slope times the height.
fn scaled(c: [i64; 3], width: usize, height: usize) -> [i64; 3]
    requires { ((jet_of c).x_slope within 4095) × ((jet_of c).y_slope within 4095) × Side width × Side height }
    ensures { result ≡ three (numbers_of (cell width height) (jet_of c)) }
{
    [c[0], length(width) * c[1], length(height) * c[2]]
}

// Its slopes exchanged.
fn swap(c: [i64; 3]) -> [i64; 3]
    ensures { result ≡ three (swap (jet_of c)) }
{
    [c[0], c[2], c[1]]
}

// Its y-slope negated.
fn negate_y(c: [i64; 3]) -> [i64; 3]
    requires { (jet_of c).y_slope within largest }
    ensures { result ≡ three (negate_y (jet_of c)) }
{
    [c[0], c[1], -c[2]]
}
