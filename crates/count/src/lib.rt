// The COUNT-th day that one cron or rule frame holds: a month is passed by its number of held days.
#![tactic(auto)]

ghost use Rattle.std.specs.Prelude.{◌≡◌, ◌-◌, ◌/◌, ◌≤◌};
ghost use Rattle.days.specs.Search.{nth_day};
ghost use Rattle.frames.specs.Months.{day_of, InMonth};
ghost use Rattle.frames.specs.Numbers.{start_month};
ghost use Rattle.frames.specs.Years.{year_counts};

mod bits;
mod runs;
mod sets;
mod turns;

use calendar::window;
use frames::places::Row;
use frames::{places, years};

// The counts of the year of month k, from those of the month before. The frame and the month go on as words: the month is the loop's own.
// Not in line: few frames are placed, and of the others no month is then divided by 12.
#[inline(never)]
fn counts_on(f: &Row, counts: u64, k: u64) -> u64
    requires { (1 ≤ k) × (counts ≡ year_counts f.now ((k - 1) / 12)) }
    ensures { result ≡ year_counts f.now (k / 12) }
{
    if k % 12 == 0 {
        return years::year_counts(f, k / 12);
    }
    counts
}

// The count-th held day from day `day` of a month on; `start` is the month of the start.
fn nth_from(f: &Row, start: u64, month: u64, day: u64, count: u64) -> u64
    requires { (start ≡ start_month f.now) × (InMonth month day) × (1 ≤ count) }
    ensures { result ≡ nth_day f.now count (day_of month day) }
{
    let mut n = day;
    let mut left = count;
    let placed = years::is_placed(f);
    let mut counts = years::year_counts(f, month / 12);
    for k in month..window::MONTHS {
        let set = sets::held_set(f, start, counts, k);
        let here = masks::count_from(set, n);
        if left <= here {
            return window::month_first(k) + bits::nth_bit(set, n, left) - 1;
        }
        left -= here;
        n = 1;
        if placed {
            counts = counts_on(f, counts, k + 1);
        }
    }
    window::DAYS
}

// The count-th held day from low on; the first day past 2099 where there are fewer.
pub fn nth_day(f: &Row, count: u64, low: u64) -> u64
    ensures { result ≡ nth_day f.now count low }
{
    if count == 0 {
        return window::DAYS.max(low);
    }
    if window::DAYS <= low {
        return low;
    }
    let start = window::local_date(f[places::START] / window::DAY);
    let place = window::local_date(low);
    nth_from(f, start.month, place.month, place.day, count)
}
