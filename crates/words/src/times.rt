// Times and offsets as numbers, or that they are out of range.
ghost use Rattle.std.specs.Prelude.{◌≡◌};
ghost use Rattle.words.specs.Times.{local_minute, offset_from};

use crate::cursor::{Shift, Time};
use calendar::date::day_of_date;
use calendar::window;

const FIRST_YEAR: u64 = 2000;

const LAST_YEAR: u64 = 2099;

const LAST_HOUR: u64 = 23;

const LAST_MINUTE: u64 = 59;

const HOUR: u64 = 60;
// Minutes: −12:00, +14:00, and the hours past it.
const MOST_BEHIND: u64 = 720;

const MOST_AHEAD: u64 = 840;

const HOURS_PAST: u64 = 15;

// The local minute of a time, if it is in range.
#[tactic(auto, using(crate::proofs::Values::minutes), unfolding(crate::specs::Times::local_minute))]
pub fn local_minute(t: Time) -> Option<u64>
    ensures { result ≡ local_minute t }
{
    if !(FIRST_YEAR..=LAST_YEAR).contains(&t.year) {
        return None;
    }
    if LAST_HOUR < t.hour || LAST_MINUTE < t.minute || 0 < t.second {
        return None;
    }
    let day = day_of_date(t.year, t.month, t.day)?;
    Some(window::DAY * (day - window::FIRST_DAY) + (HOUR * t.hour + t.minute))
}

// An offset moved up by a day, if it is in range.
#[tactic(auto, using(crate::proofs::Values::offsets), unfolding(crate::specs::Times::offset_from))]
pub fn offset_of(s: Shift) -> Option<u64>
    ensures { result ≡ offset_from s }
{
    if HOURS_PAST <= s.hours || LAST_MINUTE < s.minutes {
        return None;
    }
    let all = HOUR * s.hours + s.minutes;
    if s.minus {
        if !(1..=MOST_BEHIND).contains(&all) {
            return None;
        }
        return Some(zone::BIAS - all);
    }
    if MOST_AHEAD < all {
        return None;
    }
    Some(zone::BIAS + all)
}
