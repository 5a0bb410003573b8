// Whether some slope would be too steep.
ghost use Rattle.std.specs.Prelude.{◌≡◌, not, ◌≤◌, ◌<◌};
ghost use Rattle.sheet_layout.specs.Some.{some};
ghost use Rattle.sheet_layout.specs.Format.{columns, rows, slope_in};
ghost use Rattle.sheet_layout.specs.Axis.{lines_of};
ghost use Rattle.sheet_slopes.specs.Slopes.{too_steep, some_too_steep};
ghost use Rattle.sheet_steepness.specs.Along.{lines_across, filled_along};

use super::slopes::{divisor, stiffened};
use integers::round;
use sheet_calls::accepted::Sheet;
use sheet_layout::axis::Axis;
use sheet_layout::gathering::some;
use sheet_layout::header::{columns, rows};

pub fn some_too_steep(sheet: Sheet<'_>, stiffness: u32) -> bool
    requires { stiffness ≤ 64 }
    ensures { result ≡ some_too_steep sheet.entry.bytes.now stiffness }
{
    some(
        rows(sheet.bytes),
        |row| row_too_steep(sheet, stiffness, row),
    )
}

fn row_too_steep(sheet: Sheet<'_>, stiffness: u32, row: usize) -> bool
    requires { (stiffness ≤ 64) × (row < rows sheet.bytes.now) }
    ensures { result ≡ some (λ i. too_steep sheet.entry.bytes.now stiffness i row) (columns sheet.entry.bytes.now) }
{
    some(
        columns(sheet.bytes),
        |column| too_steep(sheet, stiffness, column, row),
    )
}

fn too_steep(sheet: Sheet<'_>, stiffness: u32, column: usize, row: usize) -> bool
    requires { (stiffness ≤ 64) × (column < columns sheet.bytes.now) × (row < rows sheet.bytes.now) }
    ensures { result ≡ too_steep sheet.entry.bytes.now stiffness column row }
{
    steep(sheet, stiffness, Axis::X, column, row) | steep(sheet, stiffness, Axis::Y, row, column)
}

// Whether the slope along an axis, at its line `k` and line `across` of the other one, is out of range when it is rounded.
fn steep(sheet: Sheet<'_>, stiffness: u32, axis: Axis, k: usize, across: usize) -> bool
    requires { (stiffness ≤ 64) × (k < lines_of axis sheet.bytes.now) × (across < lines_across axis sheet.bytes.now) }
    ensures { result ≡ not (slope_in (filled_along axis sheet.entry.bytes.now stiffness k across)) }
{
    let stiffened = stiffened(sheet.bytes, stiffness, axis, k, across);
    let divisor = divisor(sheet.bytes, axis, k);
    // a quotient in range stays there when it is rounded, so only the others are divided
    if (-4095 * divisor..=4095 * divisor).contains(&stiffened) {
        return false;
    }
    let slope = round(stiffened, divisor);
    !(-4095..=4095).contains(&slope)
}
