// Nodes of a sheet, looked up and set; and why such a call is refused.
#![tactic(auto)]

ghost use Rattle.std.specs.Prelude.{◌≡◌, ◌+◌, ◌≤◌, length};
ghost use Rattle.sheet_layout.specs.Format.{header_size, node, node_size, node_offset};
ghost use Rattle.sheet_calls.specs.Refusals.{no_node, wrong_numbers, lookup_refusal, setting_refusal};
ghost use Rattle.sheet_calls.specs.Refused.{refusal_number};
ghost use Rattle.sheet_calls.specs.Calls.{looked_up, stretch, Part, with_node};

use sheet_calls::refusal::Refusal;
use sheet_checking::sheet_refusal;
use sheet_layout::header::{columns, rows};
use sheet_layout::node::Node;
use sheet_layout::{NODE_SIZE, node_offset, put_node};

// The node's bytes, where they lie in the sheet; or, refused, none from its start. No Result: 01 has it hand back a part of the caller's slice.
pub fn node(sheet: &[u8], column: u32, row: u32) -> &[u8]
    ensures { Part sheet.entry result (looked_up sheet.now column row) }
{
    if node_refusal(sheet, column, row).is_err() {
        return &sheet[0..0];
    }
    found(sheet, column, row)
}

// Why the lookup of this node is refused.
pub fn node_refusal(sheet: &[u8], column: u32, row: u32) -> Result<(), Refusal>
    ensures { refusal_number result ≡ lookup_refusal sheet.now column row }
{
    sheet_refusal(sheet)?;
    if no_node(sheet, column, row) {
        return Err(Refusal::NoNode);
    }
    Ok(())
}

// Sets a node's numbers; or, refused, leaves the sheet as it was.
pub fn set_node(sheet: &mut [u8], column: u32, row: u32, numbers: Node) -> Result<(), Refusal>
    ensures answer { refusal_number result ≡ setting_refusal sheet.old column row (node numbers.height numbers.x_slope numbers.y_slope) }
    ensures sheet { sheet.new ≡ with_node sheet.old column row (node numbers.height numbers.x_slope numbers.y_slope) }
{
    node_refusal(sheet, column, row)?;
    if wrong_numbers(numbers) {
        return Err(Refusal::WrongNumbers);
    }
    let at = offset(sheet, column, row);
    put_node(sheet, at, numbers);
    Ok(())
}

// The bytes of a node that the sheet has. Not of a `Sheet`: that the node is there is a part of what the lookup asks.
fn found(sheet: &[u8], column: u32, row: u32) -> &[u8]
    requires { lookup_refusal sheet.now column row ≡ 0 }
    ensures { Part sheet.entry result (stretch (node_offset sheet.now column row) node_size) }
{
    let start = offset(sheet, column, row);
    let end = start + NODE_SIZE;
    &sheet[start..end]
}

fn no_node(sheet: &[u8], column: u32, row: u32) -> bool
    requires { header_size ≤ length sheet.now }
    ensures { result ≡ no_node sheet.now column row }
{
    (columns(sheet) <= column as usize) | (rows(sheet) <= row as usize)
}

// Where the node's bytes start.
fn offset(sheet: &[u8], column: u32, row: u32) -> usize
    requires { lookup_refusal sheet.now column row ≡ 0 }
    ensures { (result ≡ node_offset sheet.now column row) × (result + node_size ≤ length sheet.now) }
{
    node_offset(sheet, column as usize, row as usize)
}

fn wrong_numbers(numbers: Node) -> bool
    ensures { result ≡ wrong_numbers (node numbers.height numbers.x_slope numbers.y_slope) }
{
    !numbers.in_range()
}
