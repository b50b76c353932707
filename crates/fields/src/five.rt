// "five cron fields, one space between"
ghost use Rattle.std.specs.Prelude.{cond, ◌≡◌, ◌+◌};
ghost use Rattle.fields.specs.Crons.{space_after, frame_as, cron_read, five_as};
ghost use Rattle.fields.specs.Fields.{field_at};

use crate::field::{CronField, DayOfMonth, DayOfWeek, Field, Hour, Minute, Month, field_at};
use frames::{Cron, kinds};
use words::cursor::{Cursor, SPACE};

// A field with one space after it.
fn spaced<F: CronField>(s: &[u8], c: Cursor) -> Option<(Option<Field>, Cursor)>
    ensures { result ≡ space_after s.now (field_at F.LOW F.HIGH s.now c.at) }
{
    let (field, next) = field_at::<F>(s, c)?;
    if next.byte(s) != SPACE {
        return None;
    }
    Some((field, Cursor { at: next.at + 1 }))
}

// The flags of a restricted day of month, day of week and month.
const DAYS: u64 = 1 << kinds::DAY_FLAG;

const WEEKDAYS: u64 = 1 << kinds::WEEKDAY_FLAG;

const MONTHS: u64 = 1 << kinds::MONTH_FLAG;

// "flags 1 (bit 0 day of month restricted, bit 1 day of week restricted)", and bit 2 month.
fn flags(days: bool, weekdays: bool, months: bool) -> u64
    ensures { result ≡ cond days 1 0 + cond weekdays 2 0 + cond months 4 0 }
{
    DAYS * u64::from(days) + WEEKDAYS * u64::from(weekdays) + MONTHS * u64::from(months)
}

// The frame of five fields, if the numbers of all are in range.
fn frame_of(
    minutes: Option<Field>,
    hours: Option<Field>,
    days: Option<Field>,
    months: Option<Field>,
    weekdays: Option<Field>,
) -> Option<Cron>
    ensures { result ≡ frame_as minutes hours days months weekdays }
{
    let (minutes, hours) = (minutes?, hours?);
    let (days, months, weekdays) = (days?, months?, weekdays?);
    Some(Cron {
        minutes: minutes.mask,
        hours: hours.mask,
        days: days.mask,
        months: months.mask,
        weekdays: weekdays.mask,
        flags: flags(days.restricted, weekdays.restricted, months.restricted),
    })
}

// The frame of five fields, or None where a number is out of range, and the place after them.
// A number out of range does not end the reading: a later form error comes first.
// Not in line: what the fields come to would lie under the search of a rule's start.
#[inline(never)]
pub fn five_at(s: &[u8], c: Cursor) -> Option<(Option<Cron>, Cursor)>
    ensures { result ≡ five_as (cron_read s.now c.at) }
{
    let (minutes, next) = spaced::<Minute>(s, c)?;
    let (hours, next) = spaced::<Hour>(s, next)?;
    let (days, next) = spaced::<DayOfMonth>(s, next)?;
    let (months, next) = spaced::<Month>(s, next)?;
    let (weekdays, next) = field_at::<DayOfWeek>(s, next)?;
    Some((frame_of(minutes, hours, days, months, weekdays), next))
}
