// What C is answered: 0, or the refusal with zeros.
ghost use Rattle.std.specs.Prelude.{◌≡◌};
ghost use Rattle.evandrusk.specs.Answers.{day_answer, date_answer, iso_answer};
ghost use Rattle.evandrusk.specs.Sheets.{compiled_for};
ghost use Rattle.evandrusk.specs.Plans.{checked_as, found_as, answer_as, local_as, refused_as, offset_as, minute_of};

use calendar::date::Date;
use calendar::iso::IsoDate;
use calendar::window;
use compile::Refusal;
use load::NotTaken;

// Refusals as numbers: the structs of include/evandrusk.h hold a uint64_t.
// Outside the range or the window.
const OUTSIDE: u64 = 5;
// A plan that is not taken.
const NOT_TAKEN: u64 = 10;
// No instant beyond the asked one.
const NONE: u64 = 11;

#[repr(C)]
#[derive(Clone, Copy)]
pub struct EvkDay {
    pub number: u64,
    pub day: i64,
}

#[repr(C)]
#[derive(Clone, Copy)]
pub struct EvkDate {
    pub number: u64,
    pub year: i64,
    pub month: i64,
    pub day: i64,
}

#[repr(C)]
#[derive(Clone, Copy)]
pub struct EvkIso {
    pub number: u64,
    pub year: i64,
    pub week: i64,
    pub weekday: i64,
}

#[repr(C)]
#[derive(Clone, Copy)]
pub struct EvkChecked {
    pub number: u64,
    pub line: u64,
}

#[repr(C)]
#[derive(Clone, Copy)]
pub struct EvkFound {
    pub number: u64,
    pub line: u64,
    pub instant: i64,
}

#[repr(C)]
#[derive(Clone, Copy)]
pub struct EvkOffset {
    pub number: u64,
    pub line: u64,
    pub offset: i64,
}

#[repr(C)]
#[derive(Clone, Copy)]
pub struct EvkCompiled {
    pub number: u64,
    pub line: u64,
    pub length: u64,
    pub bad_at: u64,
    pub bad_length: u64,
}

impl From<Option<u64>> for EvkDay {
    ghost from_gives = { λ day answer. answer ≡ day_answer day };

    fn from(day: Option<u64>) -> EvkDay {
        match day {
            Some(n) => EvkDay {
                number: 0,
                day: signed::unbias_day(n),
            },
            None => EvkDay {
                number: OUTSIDE,
                day: 0,
            },
        }
    }
}

impl From<Option<Date>> for EvkDate {
    ghost from_gives = { λ date answer. answer ≡ date_answer date };

    fn from(date: Option<Date>) -> EvkDate {
        match date {
            Some(d) => EvkDate {
                number: 0,
                year: signed::whole(d.year),
                month: signed::whole(d.month),
                day: signed::whole(d.day),
            },
            None => EvkDate {
                number: OUTSIDE,
                year: 0,
                month: 0,
                day: 0,
            },
        }
    }
}

impl From<Option<IsoDate>> for EvkIso {
    ghost from_gives = { λ iso answer. answer ≡ iso_answer iso };

    fn from(iso: Option<IsoDate>) -> EvkIso {
        match iso {
            Some(d) => EvkIso {
                number: 0,
                year: signed::whole(d.year),
                week: signed::whole(d.week),
                weekday: signed::whole(d.weekday),
            },
            None => EvkIso {
                number: OUTSIDE,
                year: 0,
                week: 0,
                weekday: 0,
            },
        }
    }
}

impl From<Result<usize, Refusal>> for EvkCompiled {
    ghost from_gives = { λ made answer. answer ≡ compiled_for made };

    fn from(made: Result<usize, Refusal>) -> EvkCompiled {
        match made {
            Ok(length) => EvkCompiled {
                number: 0,
                line: 0,
                length: length as u64,
                bad_at: 0,
                bad_length: 0,
            },
            Err(refusal) => EvkCompiled {
                number: refusal.reason.number(),
                line: refusal.line as u64,
                length: 0,
                bad_at: refusal.at as u64,
                bad_length: refusal.length as u64,
            },
        }
    }
}

impl From<Result<usize, NotTaken>> for EvkChecked {
    ghost from_gives = { λ loaded answer. answer ≡ checked_as loaded };

    fn from(loaded: Result<usize, NotTaken>) -> EvkChecked {
        match loaded {
            Ok(_) => EvkChecked { number: 0, line: 0 },
            Err(refusal) => EvkChecked {
                number: NOT_TAKEN,
                line: refusal.line as u64,
            },
        }
    }
}

impl From<Result<u64, NotTaken>> for EvkOffset {
    ghost from_gives = { λ offset answer. answer ≡ offset_as offset };

    // An offset is moved up by a day, as an instant is.
    fn from(offset: Result<u64, NotTaken>) -> EvkOffset {
        match offset {
            Ok(minutes) => EvkOffset {
                number: 0,
                line: 0,
                offset: signed::unbias_instant(minutes),
            },
            Err(refusal) => EvkOffset {
                number: NOT_TAKEN,
                line: refusal.line as u64,
                offset: 0,
            },
        }
    }
}

// The next or the previous instant of a plan.
pub(crate) fn nearest(answer: Result<Option<u64>, NotTaken>) -> EvkFound
    ensures { result ≡ answer_as answer }
{
    found(answer, NONE)
}

// The instant of a local minute by a plan's zone.
pub(crate) fn local(answer: Result<Option<u64>, NotTaken>) -> EvkFound
    ensures { result ≡ local_as answer }
{
    found(answer, OUTSIDE)
}

// An instant, or `none` where a plan that is taken has none.
fn found(answer: Result<Option<u64>, NotTaken>, none: u64) -> EvkFound
    ensures { result ≡ found_as none answer }
{
    match answer {
        Ok(Some(i)) => EvkFound {
            number: 0,
            line: 0,
            instant: signed::unbias_instant(i),
        },
        Ok(None) => refused(none, 0),
        Err(refusal) => refused(NOT_TAKEN, refusal.line),
    }
}

// A refusal has no instant.
fn refused(number: u64, line: usize) -> EvkFound
    ensures { result ≡ refused_as number line }
{
    EvkFound {
        number,
        line: line as u64,
        instant: 0,
    }
}

// A local minute that is negative is outside the window, as the first past it is.
pub(crate) fn minute_of(m: i64) -> u64
    ensures { result ≡ minute_of m }
{
    u64::try_from(m).unwrap_or(window::MINUTES)
}
