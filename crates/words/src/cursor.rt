// A cursor in a line, and what it reads: a value with the place after it.
ghost use Rattle.std.specs.Prelude.{◌≡◌, get_or, drop, map};
ghost use Rattle.words.specs.Answers.{named_as, one_at};
ghost use Rattle.words.specs.Reads.{number_at, sign_at, signed_at, time_bytes, time_at, shift_at, word_at};

use crate::digits::{decimal, digits_in};

const PLUS: u8 = b'+';

const MINUS: u8 = b'-';

const LETTER_T: u8 = b'T';

// What separates fields, elements and entries, and parts.
pub const SPACE: u8 = b' ';

pub const COMMA: u8 = b',';

pub const SEMICOLON: u8 = b';';

// The line goes beside it, here and in all that reads: a cursor that lent the line could not be said by an equation.
#[derive(Clone, Copy)]
pub struct Cursor {
    pub at: usize,
}

// A number with a sign or none; `+` and no sign are the same.
#[derive(Clone, Copy)]
pub struct Signed {
    pub minus: bool,
    pub number: u64,
}

// `YYYYMMDDTHHMM` or `YYYYMMDDTHHMMSS`, whatever its numbers; seconds that are not written are 0.
#[derive(Clone, Copy)]
pub struct Time {
    pub year: u64,
    pub month: u64,
    pub day: u64,
    pub hour: u64,
    pub minute: u64,
    pub second: u64,
}

// A sign and `HHMM`, whatever its numbers.
#[derive(Clone, Copy)]
pub struct Shift {
    pub minus: bool,
    pub hours: u64,
    pub minutes: u64,
}

impl Cursor {
    // A number of 1 to 4 digits.
    #[tactic(auto, using(crate::proofs::Counting::digits), unfolding(crate::specs::Reads::number_at))]
    pub fn number(self, s: &[u8]) -> Option<(u64, Cursor)>
        ensures { result ≡ number_at s.now self.at }
    {
        let at = self.at;
        let n = digits_in(self.rest(s));
        if !(1..=4).contains(&n) {
            return None;
        }
        Some((decimal(s, at, n), Cursor { at: at + n }))
    }

    // The byte that stands there, 0 past the end: no line has one.
    pub fn byte(self, s: &[u8]) -> u8
        ensures { result ≡ get_or s.now self.at 0 }
    {
        s.get(self.at).copied().unwrap_or(0)
    }

    // Whether a `-` stands there, and the place after it or a `+`.
    #[tactic(auto, using(crate::proofs::Counting::byte_within), unfolding(crate::specs::Reads::sign_at))]
    pub fn sign(self, s: &[u8]) -> (bool, Cursor)
        ensures { result ≡ sign_at s.now self.at }
    {
        let at = self.at;
        match self.byte(s) {
            MINUS => (true, Cursor { at: at + 1 }),
            PLUS => (false, Cursor { at: at + 1 }),
            _ => (false, self),
        }
    }

    #[tactic(auto, unfolding(crate::specs::Reads::signed_at))]
    pub fn signed(self, s: &[u8]) -> Option<(Signed, Cursor)>
        ensures { result ≡ signed_at s.now self.at }
    {
        let (minus, next) = self.sign(s);
        let (number, after) = next.number(s)?;
        Some((Signed { minus, number }, after))
    }

    // How many bytes the time that stands there uses, 13 or 15.
    #[tactic(auto, using(crate::proofs::Counting::digits, crate::proofs::Counting::byte_within), unfolding(crate::specs::Reads::time_bytes, sheet::specs::Form::clock_digits))]
    fn time_bytes(self, s: &[u8]) -> Option<usize>
        ensures { result ≡ time_bytes s.now self.at }
    {
        let at = self.at;
        if digits_in(self.rest(s)) != 8 || (Cursor { at: at + 8 }).byte(s) != LETTER_T {
            return None;
        }
        let n = digits_in(Cursor { at: at + 9 }.rest(s));
        if n != 4 && n != 6 {
            return None;
        }
        Some(9 + n)
    }

    #[tactic(auto, using(crate::proofs::Counting::time_used), unfolding(crate::specs::Reads::time_at))]
    pub fn time(self, s: &[u8]) -> Option<(Time, Cursor)>
        ensures { result ≡ time_at s.now self.at }
    {
        let at = self.at;
        let used = self.time_bytes(s)?;
        let time = Time {
            year: decimal(s, at, 4),
            month: decimal(s, at + 4, 2),
            day: decimal(s, at + 6, 2),
            hour: decimal(s, at + 9, 2),
            minute: decimal(s, at + 11, 2),
            second: decimal(s, at + 13, used - 13),
        };
        Some((time, Cursor { at: at + used }))
    }

    #[tactic(auto, using(crate::proofs::Counting::digits, crate::proofs::Counting::byte_within), unfolding(crate::specs::Reads::shift_at))]
    pub fn shift(self, s: &[u8]) -> Option<(Shift, Cursor)>
        ensures { result ≡ shift_at s.now self.at }
    {
        let at = self.at;
        let sign = self.byte(s);
        if sign != PLUS && sign != MINUS {
            return None;
        }
        if digits_in(Cursor { at: at + 1 }.rest(s)) != 4 {
            return None;
        }
        let shift = Shift {
            minus: sign == MINUS,
            hours: decimal(s, at + 1, 2),
            minutes: decimal(s, at + 3, 2),
        };
        Some((shift, Cursor { at: at + 5 }))
    }

    // What stands from the cursor on.
    pub(crate) fn rest(self, s: &[u8]) -> &[u8]
        ensures { result.now ≡ drop self.at s.now }
    {
        s.get(self.at..).unwrap_or(&[])
    }

    // The place after a word. Byte by byte and no `starts_with`, which takes 40 instructions for a word of two bytes and this 8.
    #[inline(always)]
    pub fn word(self, s: &[u8], w: &[u8]) -> Option<Cursor>
        ensures { result ≡ word_at w.now s.now self.at }
    {
        let at = self.at;
        let mut i: usize = 0;
        while i < w.len() {
            if s.len() <= at {
                return None;
            }
            if s.len() - at <= i {
                return None;
            }
            if s[at + i] != w[i] {
                return None;
            }
            i += 1;
        }
        Some(Cursor { at: at + i })
    }

    // The first of some words that stands there, by its place among them.
    #[inline(always)]
    pub fn one_of(self, s: &[u8], words: &[&[u8]]) -> Option<(u64, Cursor)>
        ensures { result ≡ named_as (one_at (map (λ w. w.now) words.now) s.now self.at) }
    {
        for (place, word) in words.iter().enumerate() {
            if let Some(next) = self.word(s, word) {
                return Some((place as u64, next));
            }
        }
        None
    }
}
