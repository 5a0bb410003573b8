// At a pixel of a cell, the bends from each piece that holds it: three numbers for a piece, in a lent list. The list comes whole, with the place to store at:
// there is no heap to gather it on. `AllWithin` is a clause, since 01 names the corner numbers' plain array.
#![tactic(auto)]

ghost use Rattle.std.specs.Prelude.{◌≡◌, ◌+◌, ◌≤◌, length};
ghost use Rattle.std.proofs.lemmas.List.Edits.{sets};
ghost use Rattle.element_cell.specs.Corners.{corners, largest, AllWithin};
ghost use Rattle.element_cell.specs.Pieces.{piece_of};
ghost use Rattle.element_bends.specs.PieceBends.{piece_bends, cell_bends};

use element_cell::{Piece, Pixel};

// Stores them from index `at` on, piece by piece, and answers the index behind the last.
pub fn cell_bends(n: [[i64; 3]; 4], p: Pixel, list: &mut [i64], at: usize) -> usize
    requires { AllWithin largest (corners n) × (at + length (cell_bends (corners n) p) ≤ length list.old) }
    ensures answer { result ≡ at + length (cell_bends (corners n) p) }
    ensures list { list.new ≡ sets list.old at (cell_bends (corners n) p) }
{
    let mut end = at;
    for piece in [Piece::Top, Piece::Right, Piece::Bottom, Piece::Left] {
        end = piece_bends(n, p, piece, list, end);
    }
    end
}

// The same of one piece.
fn piece_bends(n: [[i64; 3]; 4], p: Pixel, piece: Piece, list: &mut [i64], at: usize) -> usize
    requires { AllWithin largest (corners n) × (at + length (piece_bends (corners n) p (piece_of piece)) ≤ length list.old) }
    ensures answer { result ≡ at + length (piece_bends (corners n) p (piece_of piece)) }
    ensures list { list.new ≡ sets list.old at (piece_bends (corners n) p (piece_of piece)) }
{
    if !element_cell::holds(p, piece) {
        return at;
    }
    let k = element_pieces::coefficients(n, piece);
    list[at] = element_evaluation::bend_xx_of(k, p);
    list[at + 1] = element_evaluation::bend_xy_of(k, p);
    list[at + 2] = element_evaluation::bend_yy_of(k, p);
    at + 3
}
