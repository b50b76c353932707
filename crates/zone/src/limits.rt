// What transitions are held to: instants of the window, offsets in range, and the limits of one after another.
ghost use Rattle.std.specs.Prelude.{◌≡◌};
ghost use Rattle.zone.specs.Zone.{offset_in_range, in_range, under_limits};

use crate::Transition;

// −12:00.
const LEAST_OFFSET: u64 = 720;
// +14:00.
const GREATEST_OFFSET: u64 = 2280;
// 2000-01-01 00:00 UTC.
const WINDOW_FIRST: u64 = crate::BIAS;
// 2099-12-31 23:59 UTC.
const WINDOW_LAST: u64 = crate::BIAS + calendar::window::LAST_MINUTE;
// A transition is at least so many minutes after the one before.
pub const DISTANCE: u64 = 2880;
// It changes the offset by 1 to so many minutes.
const MOST_CHANGE: u64 = 180;

pub fn offset_in_range(offset: u64) -> bool
    ensures { result ≡ offset_in_range offset }
{
    (LEAST_OFFSET..=GREATEST_OFFSET).contains(&offset)
}

// An instant of the window and an offset in range.
pub fn in_range(change: Transition) -> bool
    ensures { result ≡ in_range change }
{
    (WINDOW_FIRST..=WINDOW_LAST).contains(&change.at) && offset_in_range(change.offset)
}

// A transition no earlier than `low` that changes `offset` by what is allowed.
#[tactic(auto, unfolding(crate::specs::Zone::under_limits))]
pub fn under_limits(low: u64, offset: u64, change: Transition) -> bool
    ensures { result ≡ under_limits low offset change }
{
    low <= change.at && (1..=MOST_CHANGE).contains(&offset.abs_diff(change.offset))
}
