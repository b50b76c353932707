// All of a rule's frame but *last*, with the defaults that go by its start. The parts and the start go on side by side: they are read apart, and come together in this crate alone.
ghost use Rattle.std.specs.Prelude.{◌≡◌, ◌/◌};
ghost use Rattle.calendar.specs.Window.{day_minutes};
ghost use Rattle.rules.specs.Ruled.{weekdays_in, own_day_in, ends_in, ordinals_in, days_in, months_in, endless};

use crate::neither;
use calendar::{window, year};
use entries::numbers::Numbers;
use frames::{Ends, Rule, kinds};
use parts::given::Parts;

const NOTHING: Ends = Ends { front: 0, back: 0 };

#[tactic(auto, using(masks::proofs::Bits::one_shifted, frames::proofs::MonthDays::weekday_at_most), unfolding(calendar::specs::Window::local_weekday, crate::specs::Ruled::weekdays_in))]
fn weekdays_in(p: Parts, start: u64) -> u64
    ensures { result ≡ weekdays_in p (start / day_minutes) }
{
    if let Some(weekdays) = p.weekdays {
        return weekdays.plain;
    }
    if p.frequency == kinds::WEEKLY {
        return 1 << year::weekday(window::FIRST_DAY + start / window::DAY);
    }
    0
}

// The default of a monthly or yearly rule is the start's day.
fn own_day(p: Parts) -> bool
    ensures { result ≡ own_day_in p }
{
    (p.frequency == kinds::MONTHLY || p.frequency == kinds::YEARLY) && neither(p)
}

fn ends_in(numbers: Option<Numbers>) -> Ends
    ensures { result ≡ ends_in numbers }
{
    numbers.map_or(
        NOTHING,
        |n| Ends {
            front: n.front,
            back: n.back,
        },
    )
}

fn ordinals_in(p: Parts) -> Ends
    ensures { result ≡ ordinals_in p }
{
    p.weekdays.map_or(
        NOTHING,
        |w| Ends {
            front: w.front,
            back: w.back,
        },
    )
}

#[tactic(auto, using(masks::proofs::Bits::one_shifted, crate::proofs::Lasts::day_fits), unfolding(crate::specs::Ruled::days_in))]
fn days_in(p: Parts, start: u64) -> Ends
    ensures { result ≡ days_in p (start / day_minutes) }
{
    if own_day(p) {
        let date = window::local_date(start / window::DAY);
        return Ends {
            front: 1 << date.day,
            back: 0,
        };
    }
    ends_in(p.days)
}

#[tactic(auto, using(masks::proofs::Bits::one_shifted), unfolding(crate::specs::Ruled::months_in))]
fn months_in(p: Parts, start: u64) -> u64
    ensures { result ≡ months_in p (start / day_minutes) }
{
    if let Some(months) = p.months {
        return months.front;
    }
    if p.frequency == kinds::YEARLY && neither(p) {
        let date = window::local_date(start / window::DAY);
        return 1 << (date.month % 12 + 1);
    }
    0
}

// The frame as without COUNT and UNTIL.
#[tactic(auto, unfolding(crate::specs::Ruled::endless))]
pub(crate) fn endless(p: Parts, start: u64) -> Rule
    ensures { result ≡ endless p start }
{
    Rule {
        frequency: p.frequency,
        interval: p.interval,
        start,
        last: window::LAST_MINUTE,
        weekdays: weekdays_in(p, start),
        days: days_in(p, start),
        ordinals: ordinals_in(p),
        positions: ends_in(p.positions),
        months: months_in(p, start),
    }
}
