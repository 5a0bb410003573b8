// How far one node reaches: the input taken apart, the refusals, and the outermost lines of the cells that touch the node.
#![tactic(auto)]

ghost use Rattle.std.specs.Prelude.{◌≡◌, ◌≤◌, ◌<◌, length};
ghost use Rattle.sheet_layout.specs.Format.{nodes_offset};
ghost use Rattle.sheet_layout.specs.Axis.{lines_of, line_of};
ghost use Rattle.sheet_layout.specs.Neighbours.{previous, next};
ghost use Rattle.sheet_calls.specs.Refusals.{lookup_refusal};
ghost use Rattle.sheet_reach.specs.Reach.{outermost, told, reach_answer};

use sheet_calls::refusal::Refusal;
use sheet_layout::axis::Axis;
use sheet_layout::neighbours::{next, previous};
use sheet_nodes::node_refusal;
use sheet_reach::OuterLines;

// The outermost lines of the cells that touch a node: the last two bytes are its column and row, those before them the sheet. Or why that is refused.
pub fn reach(input: &[u8]) -> Result<OuterLines, Refusal>
    ensures { told result ≡ reach_answer input.now }
{
    let [sheet @ .., column, row] = input else {
        return Err(Refusal::OtherMark);
    };
    node_refusal(sheet, u32::from(*column), u32::from(*row))?;
    Ok(outermost_lines(sheet, usize::from(*column), usize::from(*row)))
}

// The outermost lines of the cells that touch a node that the sheet has.
fn outermost_lines(sheet: &[u8], column: usize, row: usize) -> OuterLines
    requires { lookup_refusal sheet.now column row ≡ 0 }
    ensures { let o = outermost sheet.now column row in result ≡ record { left = o.left; top = o.top; right = o.right; bottom = o.bottom } }
{
    let (left, right) = around(sheet, Axis::X, column);
    let (top, bottom) = around(sheet, Axis::Y, row);
    OuterLines {
        left,
        top,
        right,
        bottom,
    }
}

// The positions of the lines before and after line `k` of an axis.
fn around(sheet: &[u8], axis: Axis, k: usize) -> (u32, u32)
    requires { (nodes_offset sheet.now ≤ length sheet.now) × (k < lines_of axis sheet.now) }
    ensures before { result.0 ≡ line_of axis sheet.now (previous k) }
    ensures after { result.1 ≡ line_of axis sheet.now (next (lines_of axis sheet.now) k) }
{
    let before = axis.line(sheet, previous(k));
    let after = axis.line(sheet, next(axis.lines(sheet), k));
    (before, after)
}
