// The days that the interval of a daily, weekly or yearly rule leaves out, passed over at once. A day stays a number, at most the window's end by its clause: that answers where no more counts.
ghost use Rattle.std.specs.Prelude.{◌≡◌, true, ◌/◌, ◌≤◌};
ghost use Rattle.frames.specs.Kinds.{kind_in, rule_kind, frequency_in};
ghost use Rattle.calendar.specs.Window.{day_minutes, window_days};
ghost use Rattle.frames.specs.Numbers.{rule_of, day_held, start_in};
ghost use Rattle.frames.specs.Years.{yearly};
ghost use Rattle.days.specs.Steps.{periods_number, period_of, begin_of, over_of, Passed};
ghost use Rattle.days.specs.declared.counted.Periods.{Periods};

use calendar::window;
use frames::places::Row;
use frames::{kinds, places};

#[derive(Clone, Copy)]
pub(crate) enum Periods {
    Days,
    Weeks,
    Years,
}

// The number of a day's period.
pub(crate) fn period(periods: Periods, d: u64) -> u64
    requires { d ≤ window_days }
    ensures { result ≡ period_of periods d }
{
    match periods {
        Periods::Days => d,
        Periods::Weeks => (window::FIRST_DAY + d) / 7,
        Periods::Years => 4 * d / 1461,
    }
}

// The first day of a period, a week not before the window.
fn begin(periods: Periods, p: u64) -> u64
    requires { (p ≤ 200000) × (periods ≡ Periods.Weeks → 104303 ≤ p) }
    ensures { result ≡ begin_of periods p }
{
    match periods {
        Periods::Days => p,
        Periods::Weeks => 7 * p - window::FIRST_DAY,
        Periods::Years => 365 * p + (p + 3) / 4,
    }
}

// How many periods a day's own is past the last that counts, which the start's is: an interval of 0 counts that one alone.
#[tactic(auto, using(crate::proofs::Intervals::period_rises))]
pub(crate) fn periods_over(f: &Row, periods: Periods, d: u64) -> u64
    requires { (start_in f.now / day_minutes ≤ d) × (d ≤ window_days) }
    ensures { result ≡ over_of (rule_of f.now) periods d }
{
    let passed = period(periods, d) - period(periods, f[places::START] / window::DAY);
    passed.checked_rem(f[places::INTERVAL]).unwrap_or(passed)
}

// The first day from d on whose period counts, or one past 2099.
fn period_from(f: &Row, periods: Periods, d: u64) -> u64
    requires { (d ≤ window_days) × (kind_in f.now ≡ rule_kind) × (frequency_in f.now ≡ periods_number periods) }
    ensures { Passed (day_held f.now) d result }
{
    let first = f[places::START] / window::DAY;
    if d <= first {
        return first;
    }
    let over = periods_over(f, periods, d);
    if over == 0 {
        return d;
    }
    let every = f[places::INTERVAL];
    if every <= over || window::DAYS < every {
        return window::DAYS;
    }
    begin(periods, period(periods, d) + every - over)
}

// One past the last day below d whose period counts, or 0.
fn period_before(f: &Row, periods: Periods, d: u64) -> u64
    requires { (d ≤ window_days) × (kind_in f.now ≡ rule_kind) × (frequency_in f.now ≡ periods_number periods) }
    ensures { Passed (day_held f.now) result d }
{
    if d <= f[places::START] / window::DAY {
        return 0;
    }
    let over = periods_over(f, periods, d - 1);
    if over == 0 {
        return d;
    }
    begin(periods, period(periods, d - 1) - over + 1)
}

// A day from d on, before which the interval of a daily or weekly rule leaves all days out.
#[tactic(auto, using(crate::proofs::Intervals::passed_none))]
pub(crate) fn counted_from(f: &Row, d: u64) -> u64
    requires { d ≤ window_days }
    ensures { Passed (day_held f.now) d result }
{
    if f[places::KIND] != kinds::RULE {
        return d;
    }
    if f[places::FREQUENCY] == kinds::DAILY {
        return period_from(f, Periods::Days, d);
    }
    if f[places::FREQUENCY] == kinds::WEEKLY {
        return period_from(f, Periods::Weeks, d);
    }
    d
}

// The same of a yearly rule, by its years.
#[tactic(auto, using(crate::proofs::YearWalks::yearly_kind))]
pub(crate) fn year_from(f: &Row, d: u64) -> u64
    requires { (d ≤ window_days) × (yearly f.now ≡ true) }
    ensures { Passed (day_held f.now) d result }
{
    period_from(f, Periods::Years, d)
}

// A day up to d, from which on to d that interval leaves all days out.
#[tactic(auto, using(crate::proofs::Intervals::passed_none))]
pub(crate) fn counted_before(f: &Row, d: u64) -> u64
    requires { d ≤ window_days }
    ensures { Passed (day_held f.now) result d }
{
    if f[places::KIND] != kinds::RULE {
        return d;
    }
    if f[places::FREQUENCY] == kinds::DAILY {
        return period_before(f, Periods::Days, d);
    }
    if f[places::FREQUENCY] == kinds::WEEKLY {
        return period_before(f, Periods::Weeks, d);
    }
    d
}

// The same of a yearly rule, by its years.
#[tactic(auto, using(crate::proofs::YearWalks::yearly_kind))]
pub(crate) fn year_before(f: &Row, d: u64) -> u64
    requires { (d ≤ window_days) × (yearly f.now ≡ true) }
    ensures { Passed (day_held f.now) result d }
{
    period_before(f, Periods::Years, d)
}
