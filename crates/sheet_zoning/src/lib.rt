// Zones on the screen, in code: whether a list of them is refused, the clamp that those at a pixel make, and how far along its row it is the same.
#![tactic(auto)]

pub mod list;
pub mod zone;

ghost use Rattle.std.specs.Prelude.{◌≡◌, ◌≤◌, ◌<◌, map};
ghost use Rattle.sheet_zoning.specs.Clamps.{clamp_at, clamped, leaves_all, Stretch};

use zone::zone_at;

// A clamp of levels: from a least to a greatest.
#[derive(Clone, Copy)]
pub struct Clamp {
    pub least: i32,
    pub greatest: i32,
}

// Every level of a sheet is nearer to 0: 2²⁰.
const LEVEL_BOUND: i32 = 1048576;

// What the zones that hold pixel (x, y), one after the other in list order, do to every level there: one clamp, between what they make of −2²⁰ and of 2²⁰.
pub fn clamp_at(zones: &[u8], x: u32, y: u32) -> Clamp
    ensures { result ≡ clamp_at zones.now x y }
{
    let mut least = -LEVEL_BOUND;
    let mut greatest = LEVEL_BOUND;
    for k in 0..list::count(zones) {
        let zone = zone_at(zones, k);
        if zone.holds(x, y) {
            least = zone.limited_by(least);
            greatest = zone.limited_by(greatest);
        }
    }
    Clamp { least, greatest }
}

// How many pixels from (x, y) to the right are held by the same zones, `most` at most.
pub fn stretch(zones: &[u8], x: u32, y: u32, most: usize) -> usize
    requires { 0 < most }
    ensures { (0 < result) × (result ≤ most) × Stretch zones.now x y result }
{
    let mut size = most;
    for k in 0..list::count(zones) {
        size = zone_at(zones, k).same_until(x, y, size);
    }
    size
}

impl Clamp {
    // A level brought between the clamp's ends. Not by `clamp`, which asks that they are in order.
    pub fn clamp_level(self, level: i32) -> i32
        ensures { result ≡ clamped self level }
    {
        level.max(self.least).min(self.greatest)
    }

    // Whether it leaves every level as it is.
    #[tactic(auto, unfolding(crate::specs::Clamps::leaves_all))]
    pub fn leaves_all(self) -> bool
        ensures { result ≡ leaves_all self }
    {
        (self.least <= -LEVEL_BOUND) & (LEVEL_BOUND <= self.greatest)
    }

    // Every level of a row brought between the clamp's ends.
    pub fn clamp_row(self, row: &mut [i32])
        ensures { row.new ≡ map (clamped self) row.old }
    {
        for level in row.iter_mut() {
            *level = self.clamp_level(*level);
        }
    }
}
