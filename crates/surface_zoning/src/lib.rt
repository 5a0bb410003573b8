// Zoned levels and zoned runs: their refusals; a run goes from left to right by stretches of pixels that the same zones hold.
#![tactic(auto)]

ghost use Rattle.std.specs.Prelude.{◌≡◌, length};
ghost use Rattle.sheet_calls.specs.Refused.{refusal_number};
ghost use Rattle.sheet_calls.specs.WellFormed.{OnMesh};
ghost use Rattle.sheet_zoning.specs.Clamps.{Stretch};
ghost use Rattle.surface_zones.specs.Zoned.{zoned_along, zoned_outcome, zoned_answer, zoned_run_refusal, zoned_filled};

use sheet_calls::refusal::Refusal;
use sheet_zoning::list::zones_refusal;
use sheet_zoning::{clamp_at, stretch};
use surface_filling::run_refusal;
use surface_pixels::level;
use surface_places::spot::Spot;
use surface_runs::run;

// The zoned level at a pixel, or what refuses it.
pub fn zoned_level(sheet: &[u8], zones: &[u8], x: u32, y: u32) -> Result<i32, Refusal>
    ensures { zoned_outcome result ≡ zoned_answer sheet.now zones.now x y }
{
    let spot = Spot::new(sheet, x, y)?;
    zones_refusal(zones)?;
    let clamp = clamp_at(zones, x, y);
    Ok(clamp.clamp_level(level(spot) as i32))
}

// Fills the lent row with the zoned levels from (x, y) to the right, one for each slot; or, refused, leaves the row as it was.
pub fn fill_zoned_run(
    sheet: &[u8],
    zones: &[u8],
    x: u32,
    y: u32,
    levels: &mut [i32],
) -> Result<(), Refusal>
    ensures answer { refusal_number result ≡ zoned_run_refusal sheet.now zones.now x y (length levels.old) }
    ensures levels { levels.new ≡ zoned_filled sheet.now zones.now x y levels.old }
{
    run_refusal(sheet, x, y, levels.len())?;
    zones_refusal(zones)?;
    fill_stretches(sheet, zones, x, y, levels);
    Ok(())
}

// Fills a row that is not refused, stretch by stretch.
fn fill_stretches(sheet: &[u8], zones: &[u8], x: u32, y: u32, row: &mut [i32])
    requires { OnMesh sheet.now x y (length row.old) }
    ensures { row.new ≡ zoned_along sheet.now zones.now x y (length row.old) }
{
    let count = row.len();
    let mut done: usize = 0;
    // Not a `for`: where the next stretch begins is known only from the zones at this one.
    while done < count {
        let next = x + done as u32;
        let end = done + stretch(zones, next, y, count - done);
        fill_stretch(sheet, zones, next, y, &mut row[done..end]);
        done = end;
    }
}

// Fills the slots of a stretch: the levels, and then the clamp that its zones make, if any hold it.
fn fill_stretch(sheet: &[u8], zones: &[u8], x: u32, y: u32, row: &mut [i32])
    requires { OnMesh sheet.now x y (length row.old) × Stretch zones.now x y (length row.old) }
    ensures { row.new ≡ zoned_along sheet.now zones.now x y (length row.old) }
{
    let count = row.len();
    run(sheet, x, y, row, count);
    let clamp = clamp_at(zones, x, y);
    if !clamp.leaves_all() {
        clamp.clamp_row(row);
    }
}
