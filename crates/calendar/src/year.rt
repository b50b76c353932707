// Years and months: which are leap, how long they are, where they start.
ghost use Rattle.std.specs.Prelude.{◌≡◌, true, ◌≤◌, ◌<◌};
ghost use Rattle.signed.specs.Bias.{all_days};
ghost use Rattle.calendar.specs.Calendar.{leap_year, year_start, month_start, month_length, year_day, month_day, weekday_of};

// The days of four centuries, the last of which has a day more than the others.
const FOUR_CENTURIES: u64 = 146097;
// The days of four years, the last of which is leap.
const FOUR_YEARS: u64 = 1461;

// A year, and the days of it before a day.
#[derive(Clone, Copy)]
pub struct YearDay {
    pub year: u64,
    pub day: u64,
}

// A month, and the day of it, which counts from 1.
#[derive(Clone, Copy)]
pub struct MonthDay {
    pub month: u64,
    pub day: u64,
}

#[tactic(auto, unfolding(crate::specs::Calendar::leap_year))]
pub fn leap(year: u64) -> bool
    ensures { result ≡ leap_year year }
{
    year % 4 == 0 && (year % 100 != 0 || year % 400 == 0)
}

// The days of the year before its month: from March on the months start every 30 7/12 days, two days earlier than with a February of 30.
#[tactic(auto, using(crate::proofs::Months::month_start_past, crate::proofs::Months::month_start_early, crate::proofs::Months::month_start_late))]
pub fn month_start(leap: bool, month: u64) -> u64
    ensures { result ≡ month_start leap month }
{
    if 12 < month {
        return 365 + u64::from(leap);
    }
    if month < 3 {
        return month / 2 * 31;
    }
    (367 * month - 362) / 12 - 2 + u64::from(leap)
}

// The days of a month; none of what is no month.
#[tactic(auto, using(crate::proofs::Months::month_length_past, crate::proofs::Months::month_start_next))]
pub fn month_length(leap: bool, month: u64) -> u64
    ensures { result ≡ month_length leap month }
{
    if 12 < month {
        return 0;
    }
    month_start(leap, month + 1) - month_start(leap, month)
}

// A year stays a number with its bounds in the clauses, here and in iso: they end at two different years.
// The days before a year: of every four years one is leap, but for three of four centuries.
#[tactic(auto, using(crate::proofs::Years::year_start_closed))]
pub(crate) fn start(year: u64) -> u64
    requires { (1 ≤ year) × (year ≤ 10000) }
    ensures { result ≡ year_start year }
{
    let years = year - 1;
    365 * years + years / 4 - years / 100 + years / 400
}

// The year of a day of the range, by groups of 400, 100 and 4 years. After k centuries, or k years of a century, k quarters of the four's
// days have passed, rounded down: no more than n, where k times the four's days are at most 4 n + 3.
#[tactic(auto, using(crate::proofs::Groups::year_day_grouped))]
pub(crate) fn year_day(n: u64) -> YearDay
    requires { n < all_days }
    ensures { result ≡ year_day n }
{
    let centuries = (4 * n + 3) / FOUR_CENTURIES;
    let rest = n - FOUR_CENTURIES * centuries / 4;
    let years = (4 * rest + 3) / FOUR_YEARS;
    YearDay {
        year: 100 * centuries + years + 1,
        day: rest - FOUR_YEARS * years / 4,
    }
}

// The month of a day of a year: a month has at most 31 days and the twelve together at most 366, so it is the 32-day month that the
// day would be in, or the next.
#[tactic(auto, using(crate::proofs::Months::guessed_next, crate::proofs::Months::guessed_within, crate::proofs::Months::guessed_this))]
pub(crate) fn month_day(leap: bool, day: u64) -> MonthDay
    requires { day < 366 }
    ensures { result ≡ month_day leap day }
{
    let month = day / 32 + 1;
    let next = month_start(leap, month + 1);
    if next <= day {
        return MonthDay {
            month: month + 1,
            day: day - next + 1,
        };
    }
    MonthDay {
        month,
        day: day - month_start(leap, month) + 1,
    }
}

// Sunday is 0.
#[tactic(auto, unfolding(crate::specs::Calendar::weekday_of))]
pub fn weekday(n: u64) -> u64
    ensures { result ≡ weekday_of n }
{
    (n % 7 + 1) % 7
}
