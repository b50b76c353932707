// The interval of a rule as turns of days, the first `width` days of each of which count.
ghost use Rattle.std.specs.Prelude.{◌≡◌, ◌<◌, ◌≤◌};
ghost use Rattle.calendar.specs.Window.{window_days};
ghost use Rattle.count.specs.Turns.{width_of, place_of, Turn, Stride};

use calendar::window;
use frames::places::Row;
use frames::{kinds, places};

const WEEK: u64 = 7;
// More periods than the window has: none comes round again.
const NEVER: u64 = window::DAYS + 1;

// The days of a period that go by the interval.
pub(crate) fn width(f: &Row) -> u64
    ensures { result ≡ width_of f.now }
{
    if f[places::FREQUENCY] == kinds::WEEKLY {
        return WEEK;
    }
    1
}

// The days from the first of the start's period to a day.
pub(crate) fn place(width: u64, start: u64, day: u64) -> u64
    requires { (1 ≤ width) × (start ≤ day) × (day < window_days) }
    ensures { result ≡ place_of width start day }
{
    window::FIRST_DAY + day - (window::FIRST_DAY + start) / width * width
}

// An interval within the window; one of 0 counts no period but the start's.
fn stride(every: u64) -> u64
    ensures { Stride every result }
{
    if (1..=window::DAYS).contains(&every) {
        return every;
    }
    NEVER
}

// The days from one period that counts to the next; 1 where every day does.
pub(crate) fn turn(f: &Row) -> u64
    ensures { Turn f.now result }
{
    if f[places::FREQUENCY] == kinds::DAILY {
        return stride(f[places::INTERVAL]);
    }
    if f[places::FREQUENCY] == kinds::WEEKLY {
        return WEEK * stride(f[places::INTERVAL]);
    }
    1
}
