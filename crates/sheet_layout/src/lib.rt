// The bytes of a sheet: where its parts lie, what they hold, and a node's bytes read and written. Parts lie at offsets, as in 01's format. How long the bytes
// are, and that a node is one of theirs, is a clause of each call and no type's fact: a check learns it step by step, and a sheet is written as plain bytes.
#![tactic(auto)]

pub mod axis;
pub mod gathering;
pub mod header;
pub mod neighbours;
pub mod node;
pub mod ranges;
pub mod theorems;

ghost use Rattle.std.specs.Prelude.{◌≡◌, [], ◌∷◌, true, ◌+◌, ◌*◌, ◌^◌, ◌≤◌, ◌<◌, length};
ghost use Rattle.integers.specs.Within.{◌within◌};
ghost use Rattle.sheet_words.specs.Word.{replaced};
ghost use Rattle.sheet_layout.specs.Format.{header_size, columns, rows, y_lines_offset, line_from, node, encoded, node_size, height_size, slope_bytes, slope_in, node_in, nodes_offset, node_offset, stated_size, height_at, slope_x_at, slope_y_at};

use header::{HEADER_SIZE, columns, rows};
use node::Node;
use sheet_words::{bits_of, put_word, signed_word, word};

// Where the vertical lines' positions start: behind the header.
pub const X_LINES_OFFSET: usize = HEADER_SIZE;

// How many bytes a node has.
pub const NODE_SIZE: usize = 6;

// Where the horizontal lines' positions start.
pub fn y_lines_offset(sheet: &[u8]) -> usize
    requires { header_size ≤ length sheet.now }
    ensures { (result ≡ y_lines_offset sheet.now) × (result ≤ 518) }
{
    X_LINES_OFFSET + 2 * columns(sheet)
}

// The position of line k of an axis whose positions start at an index.
pub fn line_from(sheet: &[u8], start: usize, k: usize) -> u32
    requires { start + 2 * k + 1 < length sheet.now }
    ensures { (result ≡ line_from sheet.now start k) × (result < 65536) }
{
    word(sheet, start + 2 * k)
}

// Where the nodes start.
pub fn nodes_offset(sheet: &[u8]) -> usize
    requires { header_size ≤ length sheet.now }
    ensures { (result ≡ nodes_offset sheet.now) × (result ≤ 1028) }
{
    y_lines_offset(sheet) + 2 * rows(sheet)
}

// How many nodes there are.
pub fn node_count(sheet: &[u8]) -> usize
    requires { header_size ≤ length sheet.now }
    ensures { (result ≡ columns sheet.now * rows sheet.now) × (result ≤ 65536) }
{
    columns(sheet) * rows(sheet)
}

// How many bytes a sheet with this one's counts of lines has.
pub fn stated_size(sheet: &[u8]) -> usize
    requires { header_size ≤ length sheet.now }
    ensures { result ≡ stated_size sheet.now }
{
    nodes_offset(sheet) + NODE_SIZE * node_count(sheet)
}

// Where a node's bytes start.
pub fn node_offset(sheet: &[u8], column: usize, row: usize) -> usize
    requires { (stated_size sheet.now ≤ length sheet.now) × (column < columns sheet.now) × (row < rows sheet.now) }
    ensures { (result ≡ node_offset sheet.now column row) × (result + node_size ≤ length sheet.now) }
{
    nodes_offset(sheet) + NODE_SIZE * (row * columns(sheet) + column)
}

// A node's height in grains, 64 to a step.
pub fn height(sheet: &[u8], column: usize, row: usize) -> i64
    requires { (stated_size sheet.now ≤ length sheet.now) × (column < columns sheet.now) × (row < rows sheet.now) }
    ensures { (result ≡ height_at sheet.now column row) × (result within (2 ^ 21)) }
{
    64 * signed_word(sheet, node_offset(sheet, column, row))
}

// A node's height in grains and its slopes in grains per pixel.
pub fn node_numbers(sheet: &[u8], column: usize, row: usize) -> [i64; 3]
    requires { (stated_size sheet.now ≤ length sheet.now) × (column < columns sheet.now) × (row < rows sheet.now) }
    ensures { result ≡ height_at sheet.now column row ∷ slope_x_at sheet.now column row ∷ slope_y_at sheet.now column row ∷ [] }
{
    let at = node_offset(sheet, column, row);
    [
        height(sheet, column, row),
        signed_word(sheet, at + 2),
        signed_word(sheet, at + 4),
    ]
}

// Writes a node's numbers to the bytes at index `at`.
pub fn put_node(sheet: &mut [u8], at: usize, numbers: Node)
    requires node_size_in_bounds { at + node_size ≤ length sheet.old }
    requires y_slope_value { node_in (node numbers.height numbers.x_slope numbers.y_slope) ≡ true }
    ensures { sheet.new ≡ replaced sheet.old at (encoded (node numbers.height numbers.x_slope numbers.y_slope)) }
{
    put_word(sheet, at, bits_of(numbers.height));
    put_slopes(sheet, at, numbers.x_slope, numbers.y_slope);
}

// Writes two slopes to the node whose bytes start at index `at`, and leaves its height.
pub fn put_slopes(sheet: &mut [u8], at: usize, x_slope: i32, y_slope: i32)
    requires { (at + node_size ≤ length sheet.old) × (slope_in x_slope ≡ true) × (slope_in y_slope ≡ true) }
    ensures { sheet.new ≡ replaced sheet.old (at + height_size) (slope_bytes x_slope y_slope) }
{
    put_word(sheet, at + 2, bits_of(x_slope));
    put_word(sheet, at + 4, bits_of(y_slope));
}
