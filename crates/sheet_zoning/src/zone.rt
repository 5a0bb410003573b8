// One zone of a list: whether it is wrong, which pixels it holds, and what it does to a level.
ghost use Rattle.std.specs.Prelude.{◌≡◌, ◌≤◌, ◌<◌};
ghost use Rattle.integers.specs.Within.{◌within◌};
ghost use Rattle.sheet_zones.specs.Zones.{zone_at, crosses, holds, in_grains, limited_by, wrong_zone};
ghost use Rattle.sheet_zoning.specs.Clamps.{HasZone, Alike};

use sheet_layout::ranges::in_range;
use sheet_words::{signed_word, word};
use std::marker::Model;

// How many bytes a zone has.
pub const ZONE_SIZE: usize = 12;

// A zone as it is read: its pixels from left to right and from top to bottom, all four inclusive, and its limits in steps.
#[derive(Clone, Copy)]
pub struct Zone {
    left: u32,
    top: u32,
    right: u32,
    bottom: u32,
    floor: i32,
    ceiling: i32,
}

impl Model for Zone {
    ghost use Rattle.integers.specs.Within.{◌within◌};
    ghost use Rattle.sheet_zones.specs.Zones as listed;

    ghost Value = { listed.Zone };

    ghost view = { λ z. record { left = z.left; top = z.top; right = z.right; bottom = z.bottom; floor = z.floor; ceiling = z.ceiling } };

    ghost invariant = { λ z. (z.floor within 32768) × (z.ceiling within 32768) };

    ghost inverse = { λ z. record { left = z.left; top = z.top; right = z.right; bottom = z.bottom; floor = z.floor; ceiling = z.ceiling } };
}

// Zone k of the list, by its number, as the laws have it.
#[tactic(auto, unfolding(sheet_zones::specs::Zones::zone_in))]
pub fn zone_at(zones: &[u8], k: usize) -> Zone
    requires { HasZone zones.now k }
    ensures { result ≡ zone_at zones.now k }
{
    let at = ZONE_SIZE * k;
    Zone {
        left: word(zones, at),
        top: word(zones, at + 2),
        right: word(zones, at + 4),
        bottom: word(zones, at + 6),
        floor: signed_word(zones, at + 8) as i32,
        ceiling: signed_word(zones, at + 10) as i32,
    }
}

impl Zone {
    // Whether it is wrong: left above right, top above bottom, floor above ceiling, or a limit out of range.
    #[tactic(auto, unfolding(sheet_zones::specs::Zones::wrong_zone, sheet_zones::specs::Zones::limit_in, sheet_layout::specs::Format::slope_in))]
    pub fn wrong(self) -> bool
        ensures { result ≡ wrong_zone self }
    {
        let across = self.right < self.left;
        let down = self.bottom < self.top;
        let crossed = self.ceiling < self.floor;
        across | down | crossed | !in_range(self.floor) | !in_range(self.ceiling)
    }

    // Whether it holds pixel (x, y): all four sides are its own.
    #[tactic(auto, unfolding(sheet_zones::specs::Zones::holds))]
    pub fn holds(self, x: u32, y: u32) -> bool
        ensures { result ≡ holds self x y }
    {
        (self.left <= x) & (x <= self.right) & self.crosses(y)
    }

    // Whether it has pixels in row y.
    #[tactic(auto, unfolding(sheet_zones::specs::Zones::crosses))]
    fn crosses(self, y: u32) -> bool
        ensures { result ≡ crosses self y }
    {
        (self.top <= y) & (y <= self.bottom)
    }

    // What it does to a level: raised to the floor if below, then lowered to the ceiling if above. Not by `clamp`, which a zone with crossed limits may not ask.
    pub fn limited_by(self, level: i32) -> i32
        ensures { result ≡ limited_by self level }
    {
        level.max(limit(self.floor)).min(limit(self.ceiling))
    }

    // How many of the `most` pixels from (x, y) to the right are alike: it holds all of them, or none.
    pub fn same_until(self, x: u32, y: u32, most: usize) -> usize
        requires { 0 < most }
        ensures { (0 < result) × (result ≤ most) × Alike self x y result }
    {
        if !self.crosses(y) {
            return most;
        }
        if x < self.left {
            return most.min((self.left - x) as usize);
        }
        if x <= self.right {
            return most.min((self.right - x) as usize + 1);
        }
        most
    }
}

// A limit in grains: 64 a step.
fn limit(steps: i32) -> i32
    requires { steps within 32768 }
    ensures { result ≡ in_grains steps }
{
    64 * steps
}
