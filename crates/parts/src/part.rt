// One part of a rule: its name, then its value.
ghost use Rattle.std.specs.Prelude.{◌≡◌};
ghost use Rattle.parts.specs.Values.{value_read, part_read, parted_as};

use crate::names;
use entries::numbers::{Numbers, months_at, numbers_at};
use entries::weekdays::{Weekdays, days_at};
use words::cursor::Cursor;
use words::times::local_minute;

#[derive(Clone, Copy)]
pub(crate) enum Part {
    // 1 daily, 2 weekly, 3 monthly, 4 yearly.
    Frequency(u64),
    Interval(u64),
    Count(u64),
    // The local minute, if the time is in range.
    Until(Option<u64>),
    Days(Weekdays),
    MonthDays(Numbers),
    Positions(Numbers),
    Months(Numbers),
}

// The value after a name.
#[tactic(auto, unfolding(words::specs::Times::local_minute, crate::specs::Values::value_read, crate::specs::Values::part_as))]
fn value_at(name: u64, s: &[u8], c: Cursor) -> Option<(Part, Cursor)>
    ensures { result ≡ parted_as (value_read name s.now c.at) }
{
    match name {
        names::FREQ => {
            let (k, next) = names::frequency_at(s, c)?;
            Some((Part::Frequency(k + 1), next))
        }
        names::INTERVAL => {
            let (n, next) = c.number(s)?;
            Some((Part::Interval(n), next))
        }
        names::COUNT => {
            let (n, next) = c.number(s)?;
            Some((Part::Count(n), next))
        }
        names::UNTIL => {
            let (time, next) = c.time(s)?;
            Some((Part::Until(local_minute(time)), next))
        }
        names::BYDAY => {
            let (days, next) = days_at(s, c)?;
            Some((Part::Days(days), next))
        }
        names::BYMONTHDAY => {
            let (days, next) = numbers_at(s, c)?;
            Some((Part::MonthDays(days), next))
        }
        names::BYSETPOS => {
            let (places, next) = numbers_at(s, c)?;
            Some((Part::Positions(places), next))
        }
        _ => {
            let (months, next) = months_at(s, c)?;
            Some((Part::Months(months), next))
        }
    }
}

pub(crate) fn part_at(s: &[u8], c: Cursor) -> Option<(Part, Cursor)>
    ensures { result ≡ parted_as (part_read s.now c.at) }
{
    let (name, next) = names::name_at(s, c)?;
    value_at(name, s, next)
}
