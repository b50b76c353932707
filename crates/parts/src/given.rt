// The parts of a rule together.
ghost use Rattle.std.specs.Prelude.{◌≡◌};
ghost use Rattle.std.proofs.Common.{lit≤};
ghost use Rattle.entries.specs.Gathered.{step_of};
ghost use Rattle.parts.specs.Given.{name_in, good_in, with_value, taken, take_part, parts_as, parts_read};
ghost use Rattle.parts.specs.Values.{part_read};

use crate::names;
use crate::part::{Part, part_at};
use entries::list::{Listed, gather};
use entries::numbers::Numbers;
use entries::weekdays::Weekdays;
use words::cursor::{Cursor, SEMICOLON};

const MOST_INTERVAL: u64 = 999;

const MOST_COUNT: u64 = 9999;

#[derive(Clone, Copy)]
pub struct Parts {
    // Bit k: the part with the document's k-th name was read.
    pub names: u64,
    pub twice: bool,
    // All numbers and dates are in range. One that is not does not end the reading: a later form error comes first.
    pub good: bool,
    // The frame's number, the document's: 1 daily, 2 weekly, 3 monthly, 4 yearly, 0 where none is given.
    pub frequency: u64,
    pub interval: u64,
    pub count: Option<u64>,
    // 0 where it is out of range: then `good` is false, and no rule is made of it.
    pub until: Option<u64>,
    pub weekdays: Option<Weekdays>,
    pub days: Option<Numbers>,
    pub positions: Option<Numbers>,
    pub months: Option<Numbers>,
}

const NOTHING: Parts = Parts {
    names: 0,
    twice: false,
    good: true,
    frequency: 0,
    interval: 1,
    count: None,
    until: None,
    weekdays: None,
    days: None,
    positions: None,
    months: None,
};

fn name_in(x: Part) -> u64
    ensures { result ≡ name_in x }
{
    match x {
        Part::Frequency(_) => names::FREQ,
        Part::Interval(_) => names::INTERVAL,
        Part::Count(_) => names::COUNT,
        Part::Until(_) => names::UNTIL,
        Part::Days(_) => names::BYDAY,
        Part::MonthDays(_) => names::BYMONTHDAY,
        Part::Positions(_) => names::BYSETPOS,
        Part::Months(_) => names::BYMONTH,
    }
}

fn good_in(x: Part) -> bool
    ensures { result ≡ good_in x }
{
    match x {
        Part::Frequency(_) => true,
        Part::Interval(n) => (1..=MOST_INTERVAL).contains(&n),
        Part::Count(n) => (1..=MOST_COUNT).contains(&n),
        Part::Until(minute) => minute.is_some(),
        Part::Days(d) => d.good,
        Part::MonthDays(d) | Part::Positions(d) | Part::Months(d) => d.good,
    }
}

#[tactic(auto, unfolding(crate::specs::Given::with_value))]
fn with_value(m: Parts, x: Part) -> Parts
    ensures { result ≡ with_value m x }
{
    match x {
        Part::Frequency(frequency) => Parts { frequency, ..m },
        Part::Interval(interval) => Parts { interval, ..m },
        Part::Count(n) => Parts {
            count: Some(n),
            ..m
        },
        Part::Until(minute) => Parts {
            until: Some(minute.unwrap_or(0)),
            ..m
        },
        Part::Days(d) => Parts {
            weekdays: Some(d),
            ..m
        },
        Part::MonthDays(d) => Parts { days: Some(d), ..m },
        Part::Positions(d) => Parts {
            positions: Some(d),
            ..m
        },
        Part::Months(d) => Parts {
            months: Some(d),
            ..m
        },
    }
}

// With one part more: of a part given twice the first counts.
#[tactic(auto, unfolding(crate::specs::Given::taken))]
fn take(m: Parts, x: Part) -> Parts
    ensures { result ≡ taken m x }
{
    let name = name_in(x);
    let m = Parts {
        good: m.good && good_in(x),
        ..m
    };
    if masks::test(m.names, name) {
        return Parts { twice: true, ..m };
    }
    let names = masks::with_bit(m.names, name);
    with_value(Parts { names, ..m }, x)
}

// The parts between semicolons.
struct PartList {}

impl Listed for PartList {
    type Made = Parts;

    const SEPARATOR: u8 = SEMICOLON;

    ghost SEPARATOR = { 59 };

    ghost step = { λ s. step_of take_part (part_read s) };

    ghost marks = { lit≤ tt };

    #[inline(always)]
    fn take(s: &[u8], m: Parts, c: Cursor) -> Option<(Parts, Cursor)> {
        let (x, next) = part_at(s, c)?;
        Some((take(m, x), next))
    }
}

// The parts from a cursor on.
pub fn parts_at(s: &[u8], c: Cursor) -> Option<(Parts, Cursor)>
    ensures { result ≡ parts_as (parts_read s.now c.at) }
{
    gather::<PartList>(s, NOTHING, c)
}
