// The two parts of a frame's day test: what goes by the month, and what goes by the day. Here, in steps and in back what is known goes on as words: what is handed on by a struct is no jump.
ghost use Rattle.std.specs.Prelude.{◌≡◌, ◌&&◌, ◌/◌, ◌<◌, ◌≤◌};
ghost use Rattle.calendar.specs.Window.{day_minutes, window_days};
ghost use Rattle.masks.specs.Masks.{bit};
ghost use Rattle.frames.specs.Numbers.{rule_of, day_held, start_in};
ghost use Rattle.days.specs.Steps.{day_counts, day_part, SetOf, Ready, InYear};

use crate::counted::{Periods, periods_over};
use crate::walk;
use calendar::window;
use frames::places::Row;
use frames::{kinds, months, places};

// The days of month k that the days' own part decides of.
pub(crate) fn month_mask(f: &Row, k: u64) -> u64
    requires { (Ready f.now) × (InYear f.now k) }
    ensures { SetOf (day_part f.now) (day_held f.now) k result }
{
    months::month_set(f, f[walk::START_MONTH], f[walk::COUNTS], k)
}

// The same days, for a walk from month to month: most are passed by their number alone.
#[tactic(auto, using(crate::proofs::Splits::month_out_of))]
pub(crate) fn passing_mask(f: &Row, k: u64) -> u64
    requires { (Ready f.now) × (InYear f.now k) }
    ensures { SetOf (day_part f.now) (day_held f.now) k result }
{
    if months::month_out(f, k) {
        return 0;
    }
    month_mask(f, k)
}

// The interval of a daily or weekly rule.
#[tactic(auto, using(crate::proofs::Intervals::week_of), unfolding(crate::specs::Steps::day_counts, frames::specs::Rule::counts, frames::specs::Rule::period))]
fn day_counts(f: &Row, d: u64) -> bool
    requires { (start_in f.now / day_minutes ≤ d) × (d < window_days) }
    ensures { result ≡ day_counts (rule_of f.now) d }
{
    if f[places::FREQUENCY] == kinds::DAILY {
        return periods_over(f, Periods::Days, d) == 0;
    }
    if f[places::FREQUENCY] == kinds::WEEKLY {
        return periods_over(f, Periods::Weeks, d) == 0;
    }
    true
}

// What a frame says of day d by itself: a rule's start, and the interval of a daily or weekly one.
#[tactic(auto, unfolding(crate::specs::Steps::day_part))]
fn day_part(f: &Row, d: u64) -> bool
    requires { d < window_days }
    ensures { result ≡ day_part f.now d }
{
    f[places::KIND] != kinds::RULE || (f[places::START] / window::DAY <= d && day_counts(f, d))
}

// Whether the frame holds day d, day n of a month whose set of days is known.
pub(crate) fn day_test(f: &Row, set: u64, d: u64, n: u64) -> bool
    requires { (d < window_days) × ((bit set n && day_part f.now d) ≡ day_held f.now d) }
    ensures { result ≡ day_held f.now d }
{
    masks::test(set, n) && day_part(f, d)
}
