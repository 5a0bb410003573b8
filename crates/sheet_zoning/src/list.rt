// A list of zones: how many it has, and whether it is refused.
ghost use Rattle.std.specs.Prelude.{◌≡◌};
ghost use Rattle.sheet_calls.specs.Refused.{refusal_number};
ghost use Rattle.sheet_zones.specs.Zones.{zone_count, zones_refusal, wrong_zones};

use super::zone::{ZONE_SIZE, zone_at};
use sheet_calls::refusal::Refusal;
use sheet_layout::gathering::some;

// How many bytes the longest list has.
const MOST_BYTES: usize = 192;

// Ok where a list of zones is taken, else the first of the two conditions on it that holds.
#[tactic(auto, unfolding(sheet_zones::specs::Zones::zones_refusal, sheet_zones::specs::Zones::zone_rules, sheet_zones::specs::Zones::other_zones_length, sheet_calls::specs::Rules::first_refusal))]
pub fn zones_refusal(zones: &[u8]) -> Result<(), Refusal>
    ensures { refusal_number result ≡ zones_refusal zones.now }
{
    let size = zones.len();
    if (size % ZONE_SIZE != 0) | (MOST_BYTES < size) {
        return Err(Refusal::OtherZones);
    }
    if some_wrong(zones) {
        return Err(Refusal::WrongZone);
    }
    Ok(())
}

// How many zones the list has.
pub fn count(zones: &[u8]) -> usize
    ensures { result ≡ zone_count zones.now }
{
    zones.len() / ZONE_SIZE
}

// Whether some zone is wrong.
#[tactic(auto, unfolding(sheet_zones::specs::Zones::wrong_zones))]
fn some_wrong(zones: &[u8]) -> bool
    ensures { result ≡ wrong_zones zones.now }
{
    some(count(zones), |k| zone_at(zones, k).wrong())
}
