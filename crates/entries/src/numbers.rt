// "`BYMONTHDAY=` a comma list of −31 to 31 without 0; `BYSETPOS=` likewise"; T-01: "`BYMONTH=` 1 to 12, a comma list".
ghost use Rattle.std.specs.Prelude.{◌≡◌, ℕ};
ghost use Rattle.std.proofs.Common.{lit≤};
ghost use Rattle.words.specs.Answers.{number_read, signed_read};
ghost use Rattle.words.specs.Reads.{number_at, signed_at};
ghost use Rattle.entries.specs.Gathered.{step_of};
ghost use Rattle.entries.specs.Lists.{numbers_as, numbers_read, months_as, months_read};
ghost use Rattle.entries.specs.Marks.{with_number, take_number, take_month};

use crate::list::{Listed, gather};
use words::cursor::{COMMA, Cursor, Signed};

const MOST_DAY: u64 = 31;

const MOST_MONTH: u64 = 12;

// Bit n of the front for n, of the back for −n.
#[derive(Clone, Copy)]
pub struct Numbers {
    // All are in range. One that is not does not end the reading: a later form error comes first.
    pub good: bool,
    pub front: u64,
    pub back: u64,
}

const NO_NUMBERS: Numbers = Numbers {
    good: true,
    front: 0,
    back: 0,
};

#[tactic(auto, unfolding(crate::specs::Marks::with_number))]
fn with_number(m: Numbers, most: u64, n: Signed) -> Numbers
    ensures { result ≡ with_number most m n.minus n.number }
{
    if !(1..=most).contains(&n.number) {
        return Numbers { good: false, ..m };
    }
    if n.minus {
        return Numbers {
            back: masks::with_bit(m.back, n.number),
            ..m
        };
    }
    Numbers {
        front: masks::with_bit(m.front, n.number),
        ..m
    }
}

// The numbers of BYMONTHDAY and BYSETPOS.
struct DayNumbers {}

impl Listed for DayNumbers {
    type Made = Numbers;

    const SEPARATOR: u8 = COMMA;

    ghost SEPARATOR = { 44 };

    ghost step = { λ s. step_of (take_number 31) (λ (e : ℕ). signed_read (signed_at s e)) };

    ghost marks = { lit≤ tt };

    #[inline(always)]
    #[tactic(auto, using(crate::proofs::Gathering::step_goes_on, words::proofs::Afters::signed_after))]
    fn take(s: &[u8], m: Numbers, c: Cursor) -> Option<(Numbers, Cursor)> {
        let (n, next) = c.signed(s)?;
        Some((with_number(m, MOST_DAY, n), next))
    }
}

// The months of BYMONTH, without a sign.
struct Months {}

impl Listed for Months {
    type Made = Numbers;

    const SEPARATOR: u8 = COMMA;

    ghost SEPARATOR = { 44 };

    ghost step = { λ s. step_of take_month (λ (e : ℕ). number_read (number_at s e)) };

    ghost marks = { lit≤ tt };

    #[inline(always)]
    #[tactic(auto, using(crate::proofs::Gathering::step_goes_on, crate::proofs::Gathering::number_goes_on))]
    fn take(s: &[u8], m: Numbers, c: Cursor) -> Option<(Numbers, Cursor)> {
        let (number, next) = c.number(s)?;
        let n = Signed {
            minus: false,
            number,
        };
        Some((with_number(m, MOST_MONTH, n), next))
    }
}

pub fn numbers_at(s: &[u8], c: Cursor) -> Option<(Numbers, Cursor)>
    ensures { result ≡ numbers_as (numbers_read s.now c.at) }
{
    gather::<DayNumbers>(s, NO_NUMBERS, c)
}

pub fn months_at(s: &[u8], c: Cursor) -> Option<(Numbers, Cursor)>
    ensures { result ≡ months_as (months_read s.now c.at) }
{
    gather::<Months>(s, NO_NUMBERS, c)
}
