// The limits of a rule on the days of a month, each as a mask of the days that it allows.
ghost use Rattle.std.specs.Prelude.{◌≡◌, ℕ, ◌+◌, ◌-◌, ◌%◌, ◌≤◌, ◌<◌};
ghost use Rattle.masks.specs.Masks.{bit};
ghost use Rattle.frames.specs.Months.{ordinal_at};
ghost use Rattle.frames.specs.Rule.{no_limit, month_day_allowed, ordinal_mask, ordinal_allowed, weekday_allowed};

use crate::shape::Shape;
use crate::{Ends, Rule, turns};

// Bits 1 to 31.
pub const EVERY_DAY: u64 = 4294967294;
// Bits 1 to 12.
pub const EVERY_MONTH: u64 = 8190;
// Bits 0 to 6.
pub const EVERY_WEEKDAY: u64 = 127;
// A week's mask times this is the mask twice, one week after the other.
const TWO_WEEKS: u64 = 129;
// A week's mask times this is the mask from days 1, 8, 15, 22 and 29 on.
const FIVE_WEEKS: u64 = 541098242;

pub fn no_limit(e: Ends) -> bool
    ensures { result ≡ no_limit e }
{
    e.front == 0 && e.back == 0
}

// The days that the limit of month days allows.
pub(crate) fn days_allowed(f: Rule, month: Shape) -> u64
    ensures { (n : ℕ) → 1 ≤ n → n ≤ month.len → bit result n ≡ month_day_allowed f n (month.len + 1 - n) }
{
    let wanted = f.days;
    if no_limit(wanted) {
        return EVERY_DAY;
    }
    turns::both_ends(wanted, month.len)
}

// The days of a month whose weekday is in the mask: the mask turned to the first day's weekday, week after week.
#[tactic(auto, using(crate::proofs::Weeks::week_bit))]
pub(crate) fn week_days(weekdays: u64, month: Shape) -> u64
    ensures { (n : ℕ) → 1 ≤ n → n ≤ 31 → bit result n ≡ bit weekdays ((month.first + (n - 1)) % 7) }
{
    let week = weekdays % 128;
    let turned = ((week * TWO_WEEKS) >> month.first) % 128;
    turned * FIVE_WEEKS
}

// The days whose weekday is in the mask of ordinal n + 1: a byte each, that of the first ordinal the highest.
fn ordinal_week(group: u64, n: u64, month: Shape) -> u64
    requires { n < 5 }
    ensures { (d : ℕ) → 1 ≤ d → d ≤ 31 → bit result d ≡ bit (ordinal_mask group (n + 1)) ((month.first + (d - 1)) % 7) }
{
    week_days(group >> (8 * (4 - n)), month)
}

// The days that ordinal n + 1 allows: of the seven days that it is counted in from the front, and of those from the end.
fn ordinal_days(ordinals: Ends, n: u64, month: Shape) -> u64
    requires { n < 5 }
    ensures { (d : ℕ) → 1 ≤ d → d ≤ month.len → bit result d ≡ ordinal_at ordinals month.first month.len n d }
{
    let front = ordinal_week(ordinals.front, n, month) & (EVERY_WEEKDAY << (7 * n + 1));
    let back = ordinal_week(ordinals.back, n, month)
        & ((EVERY_WEEKDAY << (month.len - 7 * n)) >> 6);
    front | back
}

// The days that ordinals allow.
fn ordinals_allowed(ordinals: Ends, month: Shape) -> u64
    ensures { (d : ℕ) → 1 ≤ d → d ≤ month.len → bit result d ≡ ordinal_allowed ordinals d (month.len + 1 - d) ((month.first + (d - 1)) % 7) }
{
    let mut set = 0;
    for n in 0..5 {
        set |= ordinal_days(ordinals, n, month);
    }
    set
}

// The days that the limit of weekdays and ordinals allows.
pub(crate) fn weekdays_allowed(f: Rule, month: Shape) -> u64
    ensures { (n : ℕ) → 1 ≤ n → n ≤ month.len → bit result n ≡ weekday_allowed f n (month.len + 1 - n) ((month.first + (n - 1)) % 7) }
{
    let ordinals = f.ordinals;
    let plain = week_days(f.weekdays, month);
    if !no_limit(ordinals) {
        return plain | ordinals_allowed(ordinals, month);
    }
    if f.weekdays == 0 {
        return EVERY_DAY;
    }
    plain
}
