// A rule frame's frequency, limits, interval and start.
ghost use Rattle.std.specs.Prelude.{◌&&◌, ◌||◌, ◌≡◌, ltb};
ghost use Rattle.frames.specs.Rule.{no_limit, rule_occurs};
ghost use Rattle.zone.specs.Zone.{in_window};
ghost use Rattle.plan.specs.Taken.{ordinals_good, places_good, any_day, frequency_good, rule_good};

use crate::bits::{only_bits, pair_good};
use calendar::window;
use days::ranges;
use frames::limits::no_limit;
use frames::{Rule, kinds};
use plan::{Frame, text};

const MOST_INTERVAL: u64 = 999;
// The numbers of five bytes.
const ORDINALS_END: u64 = 1 << 40;

// Five bytes, the top bit of each clear.
fn ordinals_good(g: u64) -> bool
    ensures { result ≡ ordinals_good g }
{
    g < ORDINALS_END && g.to_be_bytes().iter().all(|byte| *byte < 128)
}

#[tactic(auto, unfolding(plan::specs::Taken::places_good))]
fn places_good(f: Rule) -> bool
    ensures { result ≡ places_good f }
{
    only_bits(f.weekdays, 0, 6)
        && pair_good(f.days)
        && ordinals_good(f.ordinals.front)
        && ordinals_good(f.ordinals.back)
        && pair_good(f.positions)
        && only_bits(f.months, 1, 12)
}

// A month day or a weekday is set.
fn any_day(f: Rule) -> bool
    ensures { result ≡ any_day f }
{
    f.weekdays != 0 || !no_limit(f.days) || !no_limit(f.ordinals)
}

// A yearly rule's ordinals are of a month that is set.
fn months_named(f: Rule) -> bool
    ensures { result ≡ (no_limit f.ordinals || ltb 0 f.months) }
{
    no_limit(f.ordinals) || 0 < f.months
}

#[tactic(auto, unfolding(plan::specs::Taken::frequency_good))]
fn frequency_good(f: Rule) -> bool
    ensures { result ≡ frequency_good f }
{
    let plain = no_limit(f.ordinals) && no_limit(f.positions);
    match f.frequency {
        kinds::DAILY => plain,
        kinds::WEEKLY => f.weekdays != 0 && no_limit(f.days) && plain,
        kinds::MONTHLY => any_day(f),
        kinds::YEARLY => any_day(f) && months_named(f),
        _ => false,
    }
}

// Whether the start is an occurrence. In line: its row then lies beside what its caller holds, and not below it.
#[inline(always)]
pub fn start_held(f: Rule) -> bool
    ensures { result ≡ (in_window f.start && rule_occurs f f.start) }
{
    if window::MINUTES <= f.start {
        return false;
    }
    let day = f.start / window::DAY;
    let row = text::row_of(Frame::Rule(f));
    ranges::least_day(&row, day, day + 1) == day
}

#[tactic(auto, unfolding(plan::specs::Taken::rule_good))]
pub(crate) fn rule_good(f: Rule) -> bool
    ensures { result ≡ rule_good f }
{
    frequency_good(f)
        && places_good(f)
        && (1..=MOST_INTERVAL).contains(&f.interval)
        && f.last < window::MINUTES
        && f.start <= f.last
        && start_held(f)
}
