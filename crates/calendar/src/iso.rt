// ISO week dates: weeks start on Monday, and week 1 of a year holds its 4 January.
ghost use Rattle.std.specs.Prelude.{◌≡◌, ◌+◌, ◌<◌, ◌≤◌};
ghost use Rattle.calendar.specs.Calendar.{last_year};
ghost use Rattle.signed.specs.Bias.{all_days};
ghost use Rattle.calendar.specs.Iso.{iso_start, iso_weeks, iso_year, day_of_iso, iso_of_day};

use crate::{date, year};

#[derive(Clone, Copy)]
pub struct IsoDate {
    pub year: u64,
    pub week: u64,
    pub weekday: u64,
}

// The Monday of a year's week 1; day 0 is a Monday.
#[tactic(auto, using(crate::proofs::Isos::iso_start_lem, crate::proofs::Years::year_start_top))]
fn week_one(year: u64) -> u64
    requires { (1 ≤ year) × (year ≤ 10000) }
    ensures { result ≡ iso_start year }
{
    let fourth = year::start(year) + 3;
    fourth - fourth % 7
}

#[tactic(auto, using(crate::proofs::Isos::iso_start_next), unfolding(crate::specs::Iso::iso_weeks))]
fn weeks(year: u64) -> u64
    requires { (1 ≤ year) × (year ≤ last_year) }
    ensures { result ≡ iso_weeks year }
{
    (week_one(year + 1) - week_one(year)) / 7
}

#[tactic(auto, unfolding(crate::specs::Iso::day_of_iso, crate::specs::Iso::valid_iso, crate::specs::Iso::day_of_week))]
pub fn day_of_iso(year: u64, week: u64, weekday: u64) -> Option<u64>
    ensures { result ≡ day_of_iso year week weekday }
{
    if !(1..=date::LAST_YEAR).contains(&year)
        || !(1..=weeks(year)).contains(&week)
        || !(1..=7).contains(&weekday)
    {
        return None;
    }
    let n = week_one(year) + 7 * (week - 1) + (weekday - 1);
    if date::LAST_DAY < n {
        return None;
    }
    Some(n)
}

// The last year whose week 1 starts no later than the day.
#[tactic(auto, using(crate::proofs::Years::year_day_range, crate::proofs::Isos::not_first), unfolding(crate::specs::Iso::iso_year))]
fn year_of(n: u64) -> u64
    requires { n < all_days }
    ensures { result ≡ iso_year n }
{
    let year = year::year_day(n).year;
    if week_one(year + 1) <= n {
        return year + 1;
    }
    if week_one(year) <= n {
        return year;
    }
    year - 1
}

#[tactic(auto, using(crate::proofs::Isos::iso_year_range, crate::proofs::Isos::iso_year_from), unfolding(crate::specs::Iso::iso_of, crate::specs::Iso::iso_of_day))]
pub fn iso_of_day(n: u64) -> Option<IsoDate>
    ensures { result ≡ iso_of_day n }
{
    if date::LAST_DAY < n {
        return None;
    }
    let year = year_of(n);
    let past = n - week_one(year);
    Some(IsoDate {
        year,
        week: past / 7 + 1,
        weekday: past % 7 + 1,
    })
}
