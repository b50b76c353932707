// Words of rules, matched at the cursor.
ghost use Rattle.std.specs.Prelude.{◌≡◌};
ghost use Rattle.sheet.specs.Form.{frequency_words};
ghost use Rattle.words.specs.Answers.{one_at, named_as};
ghost use Rattle.parts.specs.Values.{part_heads};

use words::cursor::Cursor;

const FREQUENCIES: [&[u8]; 4] = [b"DAILY", b"WEEKLY", b"MONTHLY", b"YEARLY"];

const NAMES: [&[u8]; 8] = [
    b"FREQ=",
    b"INTERVAL=",
    b"COUNT=",
    b"UNTIL=",
    b"BYDAY=",
    b"BYMONTHDAY=",
    b"BYSETPOS=",
    b"BYMONTH=",
];

// Numbers and no enum: a name is read as its place in the document's list, and kept as that bit of a mask.
pub(crate) const FREQ: u64 = 0;

pub(crate) const INTERVAL: u64 = 1;

pub(crate) const COUNT: u64 = 2;

pub(crate) const UNTIL: u64 = 3;

pub(crate) const BYDAY: u64 = 4;

pub(crate) const BYMONTHDAY: u64 = 5;

pub(crate) const BYSETPOS: u64 = 6;

pub(crate) const BYMONTH: u64 = 7;

#[inline(always)]
#[tactic(auto, unfolding(sheet::specs::Form::frequency_words))]
pub(crate) fn frequency_at(s: &[u8], c: Cursor) -> Option<(u64, Cursor)>
    ensures { result ≡ named_as (one_at frequency_words s.now c.at) }
{
    c.one_of(s, &FREQUENCIES)
}

#[inline(always)]
#[tactic(auto, unfolding(crate::specs::Values::part_heads))]
pub(crate) fn name_at(s: &[u8], c: Cursor) -> Option<(u64, Cursor)>
    ensures { result ≡ named_as (one_at part_heads s.now c.at) }
{
    c.one_of(s, &NAMES)
}
