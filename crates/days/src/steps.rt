// The search over days: a month step that skips and a day step that walks, calling each other, the days left to the walk's last day falling.
ghost use Rattle.std.specs.Prelude.{◌≡◌, ◌+◌, ◌≤◌};
ghost use Rattle.calendar.specs.Window.{month_days, month_first, local_date};
ghost use Rattle.calendar.proofs.Leasts.{Least};
ghost use Rattle.frames.specs.Months.{day_of, InMonth};
ghost use Rattle.frames.specs.Numbers.{day_held};
ghost use Rattle.days.specs.Steps.{day_part, SetOf, Ready, InYear, Up, last_day_in};

use crate::{counted, parts, walk};
use calendar::window;
use frames::places::Row;

// The least held day from day d on up to the walk's last day, or the first past that.
#[cycle(day_step_from_day_month_step)]
pub(crate) fn from_day(f: &Row, d: u64) -> u64
    requires { (Ready f.now) × (d ≤ last_day_in f.now) × (InYear f.now (local_date d).month) }
    ensures { Least (day_held f.now) d (last_day_in f.now + 1) result }
{
    let place = window::local_date(d);
    let k = place.month;
    let set = parts::month_mask(f, k);
    if set != 0 {
        return day_step(f, k, set, window::month_days(k), d, place.day);
    }
    if f[walk::LAST_MONTH] <= k {
        return f[walk::LAST_DAY] + 1;
    }
    month_step(f, k + 1)
}

// The same from the first day of month k: a month that cannot match is passed over whole.
#[cycle(day_step_from_day_month_step)]
fn month_step(f: &Row, k: u64) -> u64
    requires { Up f.now k (month_first k) }
    ensures { Least (day_held f.now) (month_first k) (last_day_in f.now + 1) result }
{
    let set = parts::passing_mask(f, k);
    if set != 0 {
        return day_step(f, k, set, window::month_days(k), window::month_first(k), 1);
    }
    if f[walk::LAST_MONTH] <= k {
        return f[walk::LAST_DAY] + 1;
    }
    month_step(f, k + 1)
}

// The same within a month whose set of days is known. No more than six parameters: more go by the stack, and the calls are no jumps then.
#[cycle(day_step_from_day_month_step)]
fn day_step(f: &Row, k: u64, set: u64, len: u64, d: u64, n: u64) -> u64
    requires { (Up f.now k d) × (InMonth k n) × (d ≡ day_of k n) × (len ≡ month_days k) × (SetOf (day_part f.now) (day_held f.now) k set) }
    ensures { Least (day_held f.now) d (last_day_in f.now + 1) result }
{
    if parts::day_test(f, set, d, n) {
        return d;
    }
    let next = counted::counted_from(f, d + 1);
    if f[walk::LAST_DAY] < next {
        return f[walk::LAST_DAY] + 1;
    }
    let on = next - d;
    if n + on <= len {
        return day_step(f, k, set, len, next, n + on);
    }
    from_day(f, next)
}
