// The corner numbers of a cell of an accepted sheet.
#![tactic(auto)]

ghost use Rattle.std.specs.Prelude.{◌≡◌};
ghost use Rattle.element_sibson.specs.Element.{corner_numbers};
ghost use Rattle.element_cell.specs.Cell.{Side, cell};
ghost use Rattle.element_cell.specs.Corners.{arrays};
ghost use Rattle.surface_of_sheet.specs.Place.{HasCell};
ghost use Rattle.surface_of_sheet.specs.Surface.{nodes_of};

use sheet_calls::accepted::Sheet;
use sheet_layout::node_numbers;

// The twelve of the cell in a column and row: of each corner the height in grains, the width times the x-slope, the height times the y-slope. Not by a pixel of
// the cell: that would ask for offsets that no corner number needs.
pub fn corner_numbers(
    sheet: Sheet<'_>,
    column: usize,
    row: usize,
    width: usize,
    height: usize,
) -> [[i64; 3]; 4]
    requires { HasCell sheet.bytes.now column row × Side width × Side height }
    ensures { result ≡ arrays (corner_numbers (cell width height) (nodes_of sheet.entry.bytes.now column row)) }
{
    element_corners::corner_numbers(corner_nodes(sheet, column, row), width, height)
}

// The nodes at the cell's corners 00, 10, 01 and 11.
fn corner_nodes(sheet: Sheet<'_>, column: usize, row: usize) -> [[i64; 3]; 4]
    requires { HasCell sheet.bytes.now column row }
    ensures { result ≡ arrays (nodes_of sheet.entry.bytes.now column row) }
{
    let (right, below) = (column + 1, row + 1);
    [
        node_numbers(sheet.bytes, column, row),
        node_numbers(sheet.bytes, right, row),
        node_numbers(sheet.bytes, column, below),
        node_numbers(sheet.bytes, right, below),
    ]
}
