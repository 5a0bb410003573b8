// The ten doubled coefficients of a piece in the cell's own r and s, in the order 1, r, s, r², rs, s², r³, r²s, rs², s³.
#![tactic(auto)]

ghost use Rattle.std.specs.Prelude.{◌≡◌, ◌<◌};
ghost use Rattle.element_sibson.specs.Cubic.{Power};
ghost use Rattle.element_sibson.specs.Element.{in_order, column, weights, weighed, on_top, on_left, sibson};
ghost use Rattle.element_cell.specs.Corners.{corners, largest, AllWithin};
ghost use Rattle.element_cell.specs.Coefficients.{listed};
ghost use Rattle.element_cell.specs.Pieces.{piece_of};

use element_cell::{Coefficients, Piece};

// The doubled weights of piece 0: a row for each corner number, a column for each power.
const WEIGHTS: [[i64; 10]; 12] = [
    // 1 r  s  r² rs s² r³ r²s rs² s³
    [2, 0, 0, -6, 0, -6, 4, 0, 6, 2], // height 00
    [0, 2, 0, -4, 0, -1, 2, 0, 1, 0], // x-slope 00
    [0, 0, 2, 0, -2, -3, 0, 0, 2, 1], // y-slope 00
    [0, 0, 0, 6, 0, 0, -4, 0, -6, 2], // height 10
    [0, 0, 0, -2, 0, 0, 2, 0, 1, 0], // x-slope 10
    [0, 0, 0, 0, 2, -1, 0, 0, -2, 1], // y-slope 10
    [0, 0, 0, 0, 0, 6, 0, 0, -6, -2], // height 01
    [0, 0, 0, 0, 0, 1, 0, 0, -1, 0], // x-slope 01
    [0, 0, 0, 0, 0, -2, 0, 0, 2, 1], // y-slope 01
    [0, 0, 0, 0, 0, 0, 0, 0, 6, -2], // height 11
    [0, 0, 0, 0, 0, 0, 0, 0, -1, 0], // x-slope 11
    [0, 0, 0, 0, 0, 0, 0, 0, -2, 1], // y-slope 11
];

// Those of a piece, from the cell's corner numbers: the set we read from. `AllWithin` stays a clause, since 01 names the corner numbers' plain array.
pub fn coefficients(n: [[i64; 3]; 4], piece: Piece) -> Coefficients
    requires { AllWithin largest (corners n) }
    ensures { result ≡ listed (sibson (corners n) (piece_of piece)) }
{
    let doubled = match piece {
        Piece::Top => on_top(n),
        Piece::Right => element_turnings::mirrored(on_left(element_corners::left_right(n))),
        Piece::Bottom => element_turnings::flipped(on_top(element_corners::top_down(n))),
        Piece::Left => on_left(n),
    };
    Coefficients { doubled }
}

// Piece 0, a coefficient for each power. The table is lent and the powers are literal, so the compiler folds the weights.
#[tactic(auto, unfolding(element_sibson::specs::Element::weights))]
fn on_top(n: [[i64; 3]; 4]) -> [i64; 10]
    requires { AllWithin largest (corners n) }
    ensures { result ≡ listed (on_top (corners n)) }
{
    let table = &WEIGHTS;
    [
        weighed(table, 0, n),
        weighed(table, 1, n),
        weighed(table, 2, n),
        weighed(table, 3, n),
        weighed(table, 4, n),
        weighed(table, 5, n),
        weighed(table, 6, n),
        weighed(table, 7, n),
        weighed(table, 8, n),
        weighed(table, 9, n),
    ]
}

// Piece 3: piece 0 at (s, r).
fn on_left(n: [[i64; 3]; 4]) -> [i64; 10]
    requires { AllWithin largest (corners n) }
    ensures { result ≡ listed (on_left (corners n)) }
{
    element_turnings::transposed(on_top(element_corners::exchanged(n)))
}

// The coefficient of a power: its weights, each times its corner number, added. Corner number i is number i % 3 of corner i / 3.
fn weighed(table: &[[i64; 10]; 12], power: usize, n: [[i64; 3]; 4]) -> i64
    requires { (table.now ≡ weights) × (power < 10) × AllWithin largest (corners n) }
    ensures { (p : Power) → power ≡ column p → result ≡ weighed weights (in_order (corners n)) p }
{
    let mut sum: i64 = 0;
    for i in 0..12 {
        sum += table[i][power] * n[i / 3][i % 3];
    }
    sum
}
