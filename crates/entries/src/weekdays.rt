// "`BYDAY=` a comma list of weekdays, each with an optional signed ordinal."
ghost use Rattle.std.specs.Prelude.{◌≡◌};
ghost use Rattle.std.proofs.Common.{lit≤};
ghost use Rattle.entries.specs.Gathered.{step_of};
ghost use Rattle.entries.specs.Lists.{entry_read, days_as, days_read};
ghost use Rattle.entries.specs.Marks.{with_plain, with_ordinal, with_entry, take_entry};

use crate::entry::{Entry, entry_at};
use crate::list::{Listed, gather};
use words::cursor::{COMMA, Cursor, Signed};

const MOST_ORDINAL: u64 = 5;

// The weekdays without an ordinal as a mask, those with one as five of a byte each, from the front and from the end.
#[derive(Clone, Copy)]
pub struct Weekdays {
    // All ordinals are in range. One that is not does not end the reading: a later form error comes first.
    pub good: bool,
    // Some entry has an ordinal.
    pub ordinal: bool,
    pub plain: u64,
    pub front: u64,
    pub back: u64,
}

const NO_WEEKDAYS: Weekdays = Weekdays {
    good: true,
    ordinal: false,
    plain: 0,
    front: 0,
    back: 0,
};

#[tactic(auto, unfolding(crate::specs::Marks::with_plain))]
fn with_plain(m: Weekdays, weekday: u64) -> Weekdays
    ensures { result ≡ with_plain m weekday }
{
    Weekdays {
        plain: masks::with_bit(m.plain, weekday),
        ..m
    }
}

#[tactic(auto, unfolding(crate::specs::Marks::with_ordinal))]
fn with_ordinal(m: Weekdays, n: Signed, weekday: u64) -> Weekdays
    ensures { result ≡ with_ordinal m n.minus n.number weekday }
{
    let m = Weekdays { ordinal: true, ..m };
    if !(1..=MOST_ORDINAL).contains(&n.number) {
        return Weekdays { good: false, ..m };
    }
    let place = 8 * (MOST_ORDINAL - n.number) + weekday % 8;
    if n.minus {
        return Weekdays {
            back: masks::with_bit(m.back, place),
            ..m
        };
    }
    Weekdays {
        front: masks::with_bit(m.front, place),
        ..m
    }
}

fn with_entry(m: Weekdays, x: Entry) -> Weekdays
    ensures { result ≡ with_entry m x }
{
    match x {
        Entry::Plain(weekday) => with_plain(m, weekday),
        Entry::Ordinal(n, weekday) => with_ordinal(m, n, weekday),
    }
}

struct Entries {}

impl Listed for Entries {
    type Made = Weekdays;

    const SEPARATOR: u8 = COMMA;

    ghost SEPARATOR = { 44 };

    ghost step = { λ s. step_of take_entry (entry_read s) };

    ghost marks = { lit≤ tt };

    #[inline(always)]
    fn take(s: &[u8], m: Weekdays, c: Cursor) -> Option<(Weekdays, Cursor)> {
        let (x, next) = entry_at(s, c)?;
        Some((with_entry(m, x), next))
    }
}

#[tactic(auto, using(crate::proofs::Listed::days_taken))]
pub fn days_at(s: &[u8], c: Cursor) -> Option<(Weekdays, Cursor)>
    ensures { result ≡ days_as (days_read s.now c.at) }
{
    gather::<Entries>(s, NO_WEEKDAYS, c)
}
