// The held minutes of a range of local minutes, by their day and their time of day. A range stays two numbers with its bounds in the clauses, here, in lists and in one: `Least` and `Last` speak of both.
ghost use Rattle.std.specs.Prelude.{◌≡◌, ◌*◌, ◌-◌, ◌/◌, ◌%◌, ◌≤◌, ◌<◌};
ghost use Rattle.frames.specs.Kinds.{kind_in, extra_kind};
ghost use Rattle.calendar.specs.Window.{day_minutes, window_minutes};
ghost use Rattle.calendar.proofs.Leasts.{Least, Last};
ghost use Rattle.held.specs.Minutes.{frame_held, time_part, minute_part, Cut};
ghost use Rattle.held.specs.Minutes.{least_minute, last_minute};

use crate::{one, times};
use calendar::window;
use calendar::window::{DAY, LAST_OF_DAY};
use days::ranges;
use frames::places::Row;
use frames::{kinds, places};

// The least minute from low up to high, where `time` is the first time of day from low's own on.
fn from_time(f: &Row, low: u64, time: u64, high: u64) -> u64
    requires { (low < high) × (high ≤ window_minutes) × (Least (time_part f.now) (low % day_minutes) day_minutes time) × (time < day_minutes) }
    ensures { Least (minute_part f.now) low high result }
{
    let day = low / DAY;
    let end = (high + LAST_OF_DAY) / DAY;
    let found = ranges::least_day(f, day, end);
    if end <= found {
        return high;
    }
    if found == day {
        return (DAY * found + time).min(high);
    }
    (DAY * found + times::next_time(f, 0)).min(high)
}

// The least minute from low up to high by day and time of day.
fn least_part(f: &Row, low: u64, high: u64) -> u64
    requires { (low < high) × (high ≤ window_minutes) }
    ensures { Least (minute_part f.now) low high result }
{
    let time = times::next_time(f, low % DAY);
    if time < DAY {
        return from_time(f, low, time, high);
    }
    let next = DAY * (low / DAY + 1);
    if high <= next {
        return high;
    }
    let first = times::next_time(f, 0);
    if DAY <= first {
        return high;
    }
    from_time(f, next, first, high)
}

// One more than the greatest minute from low up to high, where `time` is one more than the last time of day below high.
fn up_to_time(f: &Row, low: u64, high: u64, time: u64) -> u64
    requires { (low < high) × (high ≤ window_minutes) × (Last (time_part f.now) 0 (high - day_minutes * ((high - 1) / day_minutes)) time) × (0 < time) }
    ensures { Last (minute_part f.now) low high result }
{
    let from = low / DAY;
    let day = (high - 1) / DAY;
    let past = ranges::last_day(f, from, day + 1);
    if past <= from {
        return low;
    }
    if day < past {
        return (DAY * day + time).max(low);
    }
    (DAY * (past - 1) + times::last_time(f, DAY)).max(low)
}

// One more than the greatest minute from low up to high by day and time of day.
fn last_part(f: &Row, low: u64, high: u64) -> u64
    requires { (low < high) × (high ≤ window_minutes) }
    ensures { Last (minute_part f.now) low high result }
{
    let first = DAY * ((high - 1) / DAY);
    let time = times::last_time(f, high - first);
    if 0 < time {
        return up_to_time(f, low, high, time);
    }
    if first <= low {
        return low;
    }
    let last = times::last_time(f, DAY);
    if last == 0 {
        return low;
    }
    up_to_time(f, low, first, last)
}

// Where a rule's *last* ends the range.
fn cut(f: &Row, end: u64) -> u64
    requires { kind_in f.now ≡ extra_kind → ⊥ }
    ensures { Cut (minute_part f.now) (frame_held f.now) end result }
{
    if f[places::KIND] == kinds::RULE && f[places::LAST] < end {
        return f[places::LAST] + 1;
    }
    end
}

// The least held minute from low up to high, or where that range ends; of an empty range low.
pub fn least_minute(f: &Row, low: u64, high: u64) -> u64
    ensures { result ≡ least_minute f.now low high }
{
    let end = high.min(window::MINUTES);
    if end <= low {
        return low;
    }
    if f[places::KIND] == kinds::EXTRA {
        return one::least_one(f[places::MINUTE], low, end);
    }
    let top = cut(f, end);
    if top <= low {
        return end;
    }
    let minute = least_part(f, low, top);
    if minute < top {
        return minute;
    }
    end
}

// One more than the greatest held minute from low up to high, or low.
pub fn last_minute(f: &Row, low: u64, high: u64) -> u64
    ensures { result ≡ last_minute f.now low high }
{
    let end = high.min(window::MINUTES);
    if end <= low {
        return low;
    }
    if f[places::KIND] == kinds::EXTRA {
        return one::last_one(f[places::MINUTE], low, end);
    }
    let top = cut(f, end);
    if top <= low {
        return low;
    }
    last_part(f, low, top)
}
