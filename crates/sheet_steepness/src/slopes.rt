// The slope along an axis that heights give at a node, before and after rounding. The node is that at line `k` of the axis, on line `across` of the other one.
// Node and stiffness are arguments of each call: a type of them would be made anew for every node.
ghost use Rattle.std.specs.Prelude.{◌≡◌, ◌*◌, ◌^◌, ◌≤◌, ◌<◌, pos, nat_abs, ◌*ℤ◌, length};
ghost use Rattle.integers.specs.Within.{◌within◌};
ghost use Rattle.integers.specs.Ratio.{Denominates};
ghost use Rattle.sheet_layout.specs.Format.{stated_size, grains_per_step};
ghost use Rattle.sheet_layout.specs.Axis.{lines_of, line_of};
ghost use Rattle.sheet_calls.specs.WellFormed.{Rising};
ghost use Rattle.sheet_slopes.specs.Slopes.{rise, distance};
ghost use Rattle.sheet_slopes.specs.InPlace.{Fillable};
ghost use Rattle.sheet_steepness.specs.Along.{lines_across, height_along, filled_along};

use integers::round;
use sheet_layout::axis::Axis;
use sheet_layout::height;
use sheet_layout::neighbours::{next, previous};

// The slope, rounded.
pub fn slope(sheet: &[u8], stiffness: u32, axis: Axis, k: usize, across: usize) -> i64
    requires { Fillable sheet.now stiffness × (k < lines_of axis sheet.now) × (across < lines_across axis sheet.now) }
    ensures { result ≡ filled_along axis sheet.now stiffness k across }
{
    let divisor = divisor(sheet, axis, k);
    round(stiffened(sheet, stiffness, axis, k, across), divisor)
}

// The stiffness times the rise from the node before to the node after, in grains.
pub fn stiffened(sheet: &[u8], stiffness: u32, axis: Axis, k: usize, across: usize) -> i64
    requires { (stated_size sheet.now ≤ length sheet.now) × (stiffness ≤ 64) × (k < lines_of axis sheet.now) × (across < lines_across axis sheet.now) }
    ensures { (result ≡ pos stiffness *ℤ rise (lines_of axis sheet.now) (height_along axis sheet.now across) k) × (result within (2 ^ 28)) }
{
    let after = height_along(sheet, axis, next(axis.lines(sheet), k), across);
    let before = height_along(sheet, axis, previous(k), across);
    i64::from(stiffness) * (after - before)
}

fn height_along(sheet: &[u8], axis: Axis, k: usize, across: usize) -> i64
    requires { (stated_size sheet.now ≤ length sheet.now) × (k < lines_of axis sheet.now) × (across < lines_across axis sheet.now) }
    ensures { (result ≡ height_along axis sheet.now across k) × (result within (2 ^ 21)) }
{
    match axis {
        Axis::X => height(sheet, k, across),
        Axis::Y => height(sheet, across, k),
    }
}

// What the stiffened rise is divided by: the distance from the line before to the line after, times the grains of a step.
pub fn divisor(sheet: &[u8], axis: Axis, k: usize) -> i64
    requires { (length sheet.now ≡ stated_size sheet.now) × Rising (line_of axis sheet.now) (lines_of axis sheet.now) × (2 ≤ lines_of axis sheet.now) × (k < lines_of axis sheet.now) }
    ensures { (result ≡ pos (nat_abs grains_per_step * distance (lines_of axis sheet.now) (line_of axis sheet.now) k)) × Denominates result × (result within 8192) }
{
    let after = axis.line(sheet, next(axis.lines(sheet), k));
    let before = axis.line(sheet, previous(k));
    64 * i64::from(after - before)
}
