// The search over days downwards: the steps of `steps` the other way round, the days left to the walk's last day falling.
ghost use Rattle.std.specs.Prelude.{◌≡◌, ◌+◌, ◌-◌, ◌≤◌, ◌<◌};
ghost use Rattle.calendar.specs.Window.{month_days, month_first, local_date, window_days};
ghost use Rattle.calendar.proofs.Leasts.{Last};
ghost use Rattle.frames.specs.Months.{day_of, InMonth};
ghost use Rattle.frames.specs.Numbers.{day_held};
ghost use Rattle.days.specs.Steps.{day_part, SetOf, Ready, InYear, Down, last_day_in};

use crate::{counted, parts, walk};
use calendar::window;
use frames::places::Row;

// One more than the greatest held day from day d down to the walk's last day, or that day.
#[cycle(back_from_day_day_back_month_back)]
pub(crate) fn back_from_day(f: &Row, d: u64) -> u64
    requires { (Ready f.now) × (last_day_in f.now ≤ d) × (d < window_days) × (InYear f.now (local_date d).month) }
    ensures { Last (day_held f.now) (last_day_in f.now) (d + 1) result }
{
    let place = window::local_date(d);
    let k = place.month;
    let set = parts::month_mask(f, k);
    if set != 0 {
        return day_back(f, k, set, d, place.day);
    }
    if k <= f[walk::LAST_MONTH] {
        return f[walk::LAST_DAY];
    }
    month_back(f, k - 1)
}

// The same from the last day of month k: a month that cannot match is passed over whole.
#[cycle(back_from_day_day_back_month_back)]
fn month_back(f: &Row, k: u64) -> u64
    requires { Down f.now k (month_first k + month_days k - 1) }
    ensures { Last (day_held f.now) (last_day_in f.now) (month_first k + month_days k) result }
{
    let set = parts::passing_mask(f, k);
    if set != 0 {
        let len = window::month_days(k);
        return day_back(f, k, set, window::month_first(k) + len - 1, len);
    }
    if k <= f[walk::LAST_MONTH] {
        return f[walk::LAST_DAY];
    }
    month_back(f, k - 1)
}

// The same within a month whose set of days is known.
#[cycle(back_from_day_day_back_month_back)]
fn day_back(f: &Row, k: u64, set: u64, d: u64, n: u64) -> u64
    requires { (Down f.now k d) × (InMonth k n) × (d ≡ day_of k n) × (SetOf (day_part f.now) (day_held f.now) k set) }
    ensures { Last (day_held f.now) (last_day_in f.now) (d + 1) result }
{
    if parts::day_test(f, set, d, n) {
        return d + 1;
    }
    let past = counted::counted_before(f, d);
    if past <= f[walk::LAST_DAY] {
        return f[walk::LAST_DAY];
    }
    let back = d - past + 1;
    if back < n {
        return day_back(f, k, set, past - 1, n - back);
    }
    back_from_day(f, past - 1)
}
