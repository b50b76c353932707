// What a frame says of a whole month, as a mask of its days. The frame, the counts and a month, below 1,200 by its clause, go on side by side: a struct of them would be made anew for each month.
ghost use Rattle.std.specs.Prelude.{◌≡◌, true, cond, ◌+◌, ◌%◌, ◌≤◌, ◌<◌};
ghost use Rattle.calendar.specs.Window.{month_days, window_months};
ghost use Rattle.masks.specs.Masks.{bit, mask_from};
ghost use Rattle.frames.specs.Cron.{joined, cron_day};
ghost use Rattle.frames.specs.Months.{month_counts, day_of, days_in, none_placed, rule_part, month_set, month_out};
ghost use Rattle.frames.specs.Numbers.{rule_of, rule_months_in};
ghost use Rattle.frames.specs.Rule.{month_allowed};

use crate::places::Row;
use crate::shape::Shape;
use crate::{Cron, kinds, limits, numbers, picks, places, years};
use calendar::window;

// The days 1 to `len` of a mask.
fn days_up_to(mask: u64, len: u64) -> u64
    requires { len ≤ 31 }
    ensures { result ≡ mask_from (bit mask) len 1 }
{
    (mask >> 1) % (1 << len) * 2
}

// Whether a rule's mask of months allows a month, 1 to 12.
fn allowed(months: u64, month: u64) -> bool
    ensures { result ≡ month_allowed months month }
{
    months == 0 || masks::test(months, month)
}

// Whether a day of week alone suffices by a cron frame's flags.
#[tactic(auto, unfolding(crate::specs::Cron::joined))]
fn is_joined(flags: u64) -> bool
    ensures { result ≡ joined flags }
{
    masks::test(flags, kinds::WEEKDAY_FLAG)
        && (masks::test(flags, kinds::DAY_FLAG) || masks::test(flags, kinds::MONTH_FLAG))
}

// Whether the frame's months leave no day of month k.
#[tactic(auto, unfolding(crate::specs::Months::month_out))]
pub fn month_out(f: &Row, k: u64) -> bool
    ensures { result ≡ month_out f.now k }
{
    if f[places::KIND] == kinds::CRON {
        return !(masks::test(f[places::MONTHS], k % 12 + 1) || is_joined(f[places::FLAGS]));
    }
    f[places::KIND] == kinds::RULE && !allowed(f[places::RULE_MONTHS], k % 12 + 1)
}

// The days of month k that a cron frame's month and day of month hold together.
fn month_and_days(f: Cron, k: u64) -> u64
    ensures { result ≡ cond (bit f.months (k % 12 + 1)) f.days 0 }
{
    if masks::test(f.months, k % 12 + 1) {
        f.days
    } else {
        0
    }
}

// A cron frame's days of month k.
fn cron_set(f: Cron, k: u64) -> u64
    requires { k < window_months }
    ensures { result ≡ mask_from (λ n. cron_day f (day_of k n)) (month_days k) 1 }
{
    let month = Shape::of(k);
    let days = month_and_days(f, k);
    let week = limits::week_days(f.weekdays, month);
    if is_joined(f.flags) {
        return days_up_to(days | week, month.len);
    }
    days_up_to(days & week, month.len)
}

// Every interval'th month of a rule whose periods are months, or the months of every interval'th year.
#[tactic(auto, unfolding(crate::specs::Months::month_counts))]
fn month_counts(f: &Row, start: u64, k: u64) -> bool
    ensures { result ≡ month_counts (rule_of f.now) start k }
{
    if f[places::FREQUENCY] == kinds::DAILY || f[places::FREQUENCY] == kinds::WEEKLY {
        return true;
    }
    let passed = if f[places::FREQUENCY] == kinds::YEARLY {
        (k / 12).saturating_sub(start / 12)
    } else {
        k.saturating_sub(start)
    };
    passed.checked_rem(f[places::INTERVAL]).unwrap_or(passed) == 0
}

// The day set of a rule's month, one that its mask of months allows.
fn day_set(f: &Row, k: u64) -> u64
    requires { (k < window_months) × (month_allowed (rule_months_in f.now) (k % 12 + 1) ≡ true) }
    ensures { result ≡ days_in (rule_of f.now) k }
{
    let rule = numbers::rule_of(f);
    let month = Shape::of(k);
    let days = limits::days_allowed(rule, month);
    let weekdays = limits::weekdays_allowed(rule, month);
    days_up_to(days & weekdays, month.len)
}

// Whether a rule has positions, and none for month k: it is passed without its day set.
#[tactic(auto, using(crate::proofs::YearSets::none_counted_placed), unfolding(crate::specs::Months::none_placed))]
fn none_placed(f: &Row, counts: u64, k: u64) -> bool
    ensures { result ≡ none_placed (rule_of f.now) counts k }
{
    if limits::no_limit(numbers::positions_of(f)) {
        return false;
    }
    if years::none_counted(f, counts, k) {
        return true;
    }
    let positions = years::positions_in(f, counts, k);
    positions.front < 2 && positions.back < 2
}

// A rule frame's days of month k, its start and a daily or weekly interval aside.
fn rule_set(f: &Row, start: u64, counts: u64, k: u64) -> u64
    requires { (k < window_months) × (month_allowed (rule_months_in f.now) (k % 12 + 1) ≡ true) }
    ensures { result ≡ mask_from (rule_part (rule_of f.now) start counts k) (month_days k) 1 }
{
    if !month_counts(f, start, k) || none_placed(f, counts, k) {
        return 0;
    }
    let set = day_set(f, k);
    if limits::no_limit(numbers::positions_of(f)) {
        return set;
    }
    picks::picked(
        years::positions_in(f, counts, k),
        set,
        window::month_days(k),
    )
}

// A frame's days of month k, as far as they go by the month; `start` is the month of the start, `counts` are those of the month's year.
pub fn month_set(f: &Row, start: u64, counts: u64, k: u64) -> u64
    ensures { result ≡ month_set f.now start counts k }
{
    if window::LAST_MONTH < k || month_out(f, k) {
        return 0;
    }
    if f[places::KIND] == kinds::CRON {
        return cron_set(numbers::cron_of(f), k);
    }
    if f[places::KIND] == kinds::RULE {
        return rule_set(f, start, counts, k);
    }
    0
}
