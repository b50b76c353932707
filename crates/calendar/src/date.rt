// Dates and their days, from 0001-01-01 to 9999-12-31.
ghost use Rattle.std.specs.Prelude.{◌≡◌};
ghost use Rattle.calendar.specs.Calendar.{day_of_date, date_of_day};

use crate::year;

pub const LAST_YEAR: u64 = 9999;
// 9999-12-31.
pub const LAST_DAY: u64 = signed::LAST;

#[derive(Clone, Copy)]
pub struct Date {
    pub year: u64,
    pub month: u64,
    pub day: u64,
}

// The day of a date, if it is one of the range.
#[tactic(auto, using(crate::proofs::Years::year_start_top, crate::proofs::Months::month_start_most, crate::proofs::Months::month_length_most), unfolding(crate::specs::Calendar::day_of_date, crate::specs::Calendar::valid_date, crate::specs::Calendar::day_of))]
pub fn day_of_date(year: u64, month: u64, day: u64) -> Option<u64>
    ensures { result ≡ day_of_date year month day }
{
    let leap = year::leap(year);
    if !(1..=LAST_YEAR).contains(&year) || !(1..=year::month_length(leap, month)).contains(&day) {
        return None;
    }
    Some(year::start(year) + year::month_start(leap, month) + (day - 1))
}

// The date of a day, if it is one of the range.
#[tactic(auto, using(crate::proofs::Dates::place_below), unfolding(crate::specs::Calendar::date_of_day, crate::specs::Calendar::date_of))]
pub fn date_of_day(n: u64) -> Option<Date>
    ensures { result ≡ date_of_day n }
{
    if LAST_DAY < n {
        return None;
    }
    let place = year::year_day(n);
    let month = year::month_day(year::leap(place.year), place.day);
    Some(Date {
        year: place.year,
        month: month.month,
        day: month.day,
    })
}
