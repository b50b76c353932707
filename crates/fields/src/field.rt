// "A field is `*` or an element list", over the field's lowest and highest number.
ghost use Rattle.std.specs.Prelude.{◌≡◌, ℕ, ◌≤◌};
ghost use Rattle.std.proofs.Common.{lit≤};
ghost use Rattle.fields.specs.Fields.{field_at};

use crate::list::list_from;
use words::cursor::Cursor;

const STAR: u8 = b'*';

// The numbers as a mask, and whether the field is restricted.
#[derive(Clone, Copy)]
pub struct Field {
    pub mask: u64,
    pub restricted: bool,
}

// A cron field by its lowest and highest number.
pub trait CronField {
    const LOW: u64;

    const HIGH: u64;

    ghost LOW: { ℕ };

    ghost HIGH: { ℕ };

    ghost rises: { LOW ≤ HIGH };

    ghost fits: { HIGH ≤ 62 };
}

// A field and the place after it. It is None with a number out of range, or a range whose first number is above its second.
pub fn field_at<F: CronField>(s: &[u8], c: Cursor) -> Option<(Option<Field>, Cursor)>
    ensures { result ≡ field_at F.LOW F.HIGH s.now c.at }
{
    if c.byte(s) == STAR {
        let every = Field {
            mask: (1 << (F::HIGH + 1)) - (1 << F::LOW),
            restricted: false,
        };
        return Some((Some(every), Cursor { at: c.at + 1 }));
    }
    let (marks, next) = list_from::<F>(s, c)?;
    let listed = Field {
        mask: marks.mask,
        restricted: true,
    };
    Some((marks.good.then_some(listed), next))
}

#[derive(Clone, Copy)]
pub struct Minute {}

impl CronField for Minute {
    const LOW: u64 = 0;

    const HIGH: u64 = 59;

    ghost LOW = { 0 };

    ghost HIGH = { 59 };

    ghost rises = { lit≤ tt };

    ghost fits = { lit≤ tt };
}

#[derive(Clone, Copy)]
pub struct Hour {}

impl CronField for Hour {
    const LOW: u64 = 0;

    const HIGH: u64 = 23;

    ghost LOW = { 0 };

    ghost HIGH = { 23 };

    ghost rises = { lit≤ tt };

    ghost fits = { lit≤ tt };
}

#[derive(Clone, Copy)]
pub struct DayOfMonth {}

impl CronField for DayOfMonth {
    const LOW: u64 = 1;

    const HIGH: u64 = 31;

    ghost LOW = { 1 };

    ghost HIGH = { 31 };

    ghost rises = { lit≤ tt };

    ghost fits = { lit≤ tt };
}

#[derive(Clone, Copy)]
pub struct Month {}

impl CronField for Month {
    const LOW: u64 = 1;

    const HIGH: u64 = 12;

    ghost LOW = { 1 };

    ghost HIGH = { 12 };

    ghost rises = { lit≤ tt };

    ghost fits = { lit≤ tt };
}

#[derive(Clone, Copy)]
pub struct DayOfWeek {}

impl CronField for DayOfWeek {
    const LOW: u64 = 0;

    const HIGH: u64 = 6;

    ghost LOW = { 0 };

    ghost HIGH = { 6 };

    ghost rises = { lit≤ tt };

    ghost fits = { lit≤ tt };
}
