// A pixel of the mesh of an accepted sheet: made, or refused; its cells, and its place.
ghost use Rattle.std.specs.Prelude.{◌≡◌, IfOk};
ghost use Rattle.sheet_calls.specs.Refused.{refusal_number};
ghost use Rattle.sheet_calls.specs.WellFormed.{Inside};
ghost use Rattle.surface_of_sheet.specs.Place.{place};
ghost use Rattle.surface_places.specs.Found.{found, holding};
ghost use Rattle.surface_places.specs.Spots.{spot_refusal};

use super::{Found, Lines, Place};
use sheet_calls::accepted::Sheet;
use sheet_calls::refusal::Refusal;
use sheet_checking::accepted;

// A pixel of the mesh of an accepted sheet.
#[derive(Clone, Copy)]
pub struct Spot<'a> {
    pub sheet: Sheet<'a>,
    pub x: u32,
    pub y: u32,
    ghost inside: { Inside sheet.bytes.now x y },
}

impl<'a> Spot<'a> {
    // The pixel, where the sheet is accepted and has it in its mesh, else the first condition that holds.
    pub fn new(sheet: &'a [u8], x: u32, y: u32) -> Result<Spot<'a>, Refusal>
        ensures refusal { refusal_number result ≡ spot_refusal sheet.now x y }
        ensures spot { IfOk result (λ p. (p.sheet.bytes ≡ sheet.entry) × (p.x ≡ x) × (p.y ≡ y)) }
    {
        let sheet = accepted(sheet)?;
        if Lines::of(sheet).outside(x, y) {
            return Err(Refusal::Outside);
        }
        Ok(Spot { sheet, x, y })
    }

    // The cells that touch it.
    pub fn cells(self) -> Found
        ensures { result ≡ found self.entry.sheet.bytes.now self.entry.x self.entry.y }
    {
        Lines::of(self.sheet).find(self.x, self.y)
    }

    // The place that it is read at. In line, since by a call the place would go through memory: a reading on few lines would take a quarter more time.
    #[inline(always)]
    pub fn place(self) -> Place
        ensures { result ≡ holding self.entry.sheet.bytes.now (place self.entry.sheet.bytes.now self.entry.x self.entry.y) }
    {
        Lines::of(self.sheet).read_place(self.cells(), self.x, self.y)
    }
}
