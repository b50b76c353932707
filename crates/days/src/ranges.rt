// The held days of a range of days. A range stays two numbers with their bounds in the clauses: `Least` and `Last` speak of both, and each walk makes new ends.
ghost use Rattle.std.specs.Prelude.{◌≡◌, true, ◌-◌, ◌≤◌, ◌<◌};
ghost use Rattle.calendar.proofs.Leasts.{Least, Last};
ghost use Rattle.calendar.specs.Window.{window_days};
ghost use Rattle.frames.specs.Numbers.{day_held, start_month};
ghost use Rattle.frames.specs.Years.{yearly};
ghost use Rattle.days.specs.Search.{least_day, last_day};
ghost use Rattle.days.specs.Steps.{readied, Passed, OneYear, year_first, year_past};

use crate::{back, counted, steps, walk};
use calendar::window;
use frames::places::Row;
use frames::{kinds, places, years};

#[tactic(auto, unfolding(frames::specs::Numbers::start_month))]
fn start_month(f: &Row) -> u64
    ensures { result ≡ start_month f.now }
{
    window::local_date(f[places::START] / window::DAY).month
}

// The frame with what a walk goes by: its start's month, the last month and day of the walk, the counts of its last year.
#[tactic(auto, unfolding(crate::specs::Steps::readied))]
fn ready(f: &Row, month: u64, day: u64) -> Row
    ensures { result ≡ readied f.now month day }
{
    let mut g = *f;
    g[walk::START_MONTH] = start_month(f);
    g[walk::LAST_MONTH] = month;
    g[walk::LAST_DAY] = day;
    g[walk::COUNTS] = years::year_counts(f, month / 12);
    g
}

// No day of a rule is held before its start.
#[tactic(auto, using(crate::proofs::Intervals::passed_none, crate::proofs::Intervals::from_start))]
fn begun(f: &Row, d: u64) -> u64
    ensures { Passed (day_held f.now) d result }
{
    if f[places::KIND] != kinds::RULE {
        return d;
    }
    d.max(f[places::START] / window::DAY)
}

// A walk up over the days from low to end, of one year where positions go by its counts.
fn walk_up(f: &Row, low: u64, end: u64) -> u64
    requires { (low < end) × (end ≤ window_days) × (OneYear f.now low (end - 1)) }
    ensures { Least (day_held f.now) low end result }
{
    let last = window::local_date(end - 1);
    let g = ready(f, last.month, end - 1);
    steps::from_day(&g, low)
}

// And one down.
fn walk_down(f: &Row, low: u64, end: u64) -> u64
    requires { (low < end) × (end ≤ window_days) × (OneYear f.now low (end - 1)) }
    ensures { Last (day_held f.now) low end result }
{
    let last = window::local_date(low);
    let g = ready(f, last.month, low);
    back::back_from_day(&g, end - 1)
}

// The first day of a day's year.
fn year_first(d: u64) -> u64
    requires { d < window_days }
    ensures { result ≡ year_first d }
{
    window::month_first(window::local_date(d).month / 12 * 12)
}

// And the first after it.
fn year_past(d: u64) -> u64
    requires { d < window_days }
    ensures { result ≡ year_past d }
{
    window::month_first(window::local_date(d).month / 12 * 12 + 12)
}

// A walk up of a yearly rule: year after year, those that its interval leaves out passed at once. A search, and no loop over an index.
fn years_up(f: &Row, low: u64, end: u64) -> u64
    requires { (low ≤ end) × (end ≤ window_days) × (yearly f.now ≡ true) }
    ensures { Least (day_held f.now) low end result }
{
    let mut from = low;
    while from < end {
        let first = counted::year_from(f, from);
        if end <= first {
            return end;
        }
        let past = end.min(year_past(first));
        let found = walk_up(f, first, past);
        if found < past {
            return found;
        }
        from = past;
    }
    end
}

// And one down.
fn years_down(f: &Row, low: u64, end: u64) -> u64
    requires { (low ≤ end) × (end ≤ window_days) × (yearly f.now ≡ true) }
    ensures { Last (day_held f.now) low end result }
{
    let mut past = end;
    while low < past {
        let end = counted::year_before(f, past);
        if end <= low {
            return low;
        }
        let first = low.max(year_first(end - 1));
        let found = walk_down(f, first, end);
        if first < found {
            return found;
        }
        past = first;
    }
    low
}

// The least held day of the days from low to end.
#[tactic(auto, using(crate::proofs::YearWalks::any_years))]
fn least_from(f: &Row, low: u64, end: u64) -> u64
    requires { (low < end) × (end ≤ window_days) }
    ensures { Least (day_held f.now) low end result }
{
    if years::is_yearly(f) {
        return years_up(f, low, end);
    }
    walk_up(f, low, end)
}

// And one more than the greatest, or low.
#[tactic(auto, using(crate::proofs::YearWalks::any_years))]
fn last_from(f: &Row, low: u64, end: u64) -> u64
    requires { (low < end) × (end ≤ window_days) }
    ensures { Last (day_held f.now) low end result }
{
    if years::is_yearly(f) {
        return years_down(f, low, end);
    }
    walk_down(f, low, end)
}

// The least held day from low up to high, or where that range ends; of an empty range low.
pub fn least_day(f: &Row, low: u64, high: u64) -> u64
    ensures { result ≡ least_day f.now low high }
{
    let end = high.min(window::DAYS);
    if end <= low {
        return low;
    }
    let from = begun(f, low);
    if end <= from {
        return end;
    }
    least_from(f, from, end)
}

// One more than the greatest held day from low up to high, or low.
pub fn last_day(f: &Row, low: u64, high: u64) -> u64
    ensures { result ≡ last_day f.now low high }
{
    let end = high.min(window::DAYS);
    if end <= low {
        return low;
    }
    let from = begun(f, low);
    if end <= from {
        return low;
    }
    let past = last_from(f, from, end);
    if past <= from {
        return low;
    }
    past
}
