// The window 2000 to 2099 by month: local days count from 2000-01-01, months from January 2000.
ghost use Rattle.std.specs.Prelude.{◌≡◌, ◌≤◌};
ghost use Rattle.calendar.specs.Window.{window_year, month_first, month_days, local_date};

use crate::year;
use crate::year::MonthDay;

// 2000-01-01, counted from 0001-01-01.
pub const FIRST_DAY: u64 = 730119;
// The local days.
pub const DAYS: u64 = 36525;
// 2099-12-31.
const LAST_DAY: u64 = DAYS - 1;
// The months.
pub const MONTHS: u64 = 1200;
// December 2099.
pub const LAST_MONTH: u64 = MONTHS - 1;
// The minutes of a day.
pub const DAY: u64 = 1440;
// The last minute of a day, 23:59.
pub const LAST_OF_DAY: u64 = DAY - 1;
// The local minutes.
pub const MINUTES: u64 = DAYS * DAY;
// 2099-12-31 23:59.
pub const LAST_MINUTE: u64 = MINUTES - 1;

// The local days before year 2000 + y.
#[tactic(auto, unfolding(crate::specs::Window::window_year))]
fn start(y: u64) -> u64
    requires { y ≤ 100 }
    ensures { result ≡ window_year y }
{
    365 * y + (y + 3) / 4
}

// The first local day of a month; past the window's 1,200 months, the first day past it.
#[tactic(auto, using(crate::proofs::Windows::month_first_below), unfolding(crate::specs::Window::month_first))]
pub fn month_first(month: u64) -> u64
    ensures { result ≡ month_first month }
{
    if LAST_MONTH < month {
        return DAYS;
    }
    let y = month / 12;
    start(y) + year::month_start(y % 4 == 0, month % 12 + 1)
}

// The days of a month; past the window none.
#[tactic(auto, unfolding(crate::specs::Window::month_days))]
pub fn month_days(month: u64) -> u64
    ensures { result ≡ month_days month }
{
    if LAST_MONTH < month {
        return 0;
    }
    year::month_length(month / 12 % 4 == 0, month % 12 + 1)
}

// The month of a local day, and its day of month; past the window month 1,200, day 0.
#[tactic(auto, using(crate::proofs::Windows::window_place, crate::proofs::Windows::place_month), unfolding(crate::specs::Window::local_date))]
pub fn local_date(n: u64) -> MonthDay
    ensures { result ≡ local_date n }
{
    if LAST_DAY < n {
        return MonthDay {
            month: MONTHS,
            day: 0,
        };
    }
    let y = 4 * n / 1461;
    let place = year::month_day(y % 4 == 0, n - start(y));
    MonthDay {
        month: 12 * y + (place.month - 1),
        day: place.day,
    }
}
