// An entry of BYDAY.
ghost use Rattle.std.specs.Prelude.{◌≡◌};
ghost use Rattle.sheet.specs.Form.{weekday_words};
ghost use Rattle.words.specs.Answers.{one_at, named_as};
ghost use Rattle.entries.specs.Lists.{entry_as, entry_read};

use words::cursor::{Cursor, Signed};

// A weekday, and its ordinal where it has one.
#[derive(Clone, Copy)]
pub(crate) enum Entry {
    Plain(u64),
    Ordinal(Signed, u64),
}

// Sunday first.
const WEEKDAYS: [&[u8]; 7] = [b"SU", b"MO", b"TU", b"WE", b"TH", b"FR", b"SA"];

#[inline(always)]
#[tactic(auto, unfolding(sheet::specs::Form::weekday_words))]
fn weekday_at(s: &[u8], c: Cursor) -> Option<(u64, Cursor)>
    ensures { result ≡ named_as (one_at weekday_words s.now c.at) }
{
    c.one_of(s, &WEEKDAYS)
}

#[tactic(auto, using(words::proofs::Named::named_is, words::proofs::Named::named_not, crate::proofs::Places::entry_plain, crate::proofs::Places::entry_not))]
pub(crate) fn entry_at(s: &[u8], c: Cursor) -> Option<(Entry, Cursor)>
    ensures { result ≡ entry_as (entry_read s.now c.at) }
{
    if let Some((weekday, next)) = weekday_at(s, c) {
        return Some((Entry::Plain(weekday), next));
    }
    let (number, next) = c.signed(s)?;
    let (weekday, after) = weekday_at(s, next)?;
    Some((Entry::Ordinal(number, weekday), after))
}
