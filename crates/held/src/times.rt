// The minutes of a day that a cron or rule frame holds by their time of day.
ghost use Rattle.std.specs.Prelude.{◌≡◌, ◌≤◌};
ghost use Rattle.calendar.specs.Window.{day_minutes};
ghost use Rattle.calendar.proofs.Leasts.{Least, Last};
ghost use Rattle.frames.specs.Numbers.{cron_of};
ghost use Rattle.held.specs.Minutes.{time_part};

use crate::one;
use calendar::window::DAY;
use frames::places::Row;
use frames::{kinds, places};
use masks::time::Times;

// The hours and the minutes of a cron frame.
fn times_of(f: &Row) -> Times
    ensures { result ≡ record { hours = (cron_of f.now).hours; minutes = (cron_of f.now).minutes } }
{
    Times {
        hours: f[places::HOURS],
        minutes: f[places::MINUTES],
    }
}

// The least one at or above t; 1,440 where there is none.
pub(crate) fn next_time(f: &Row, t: u64) -> u64
    requires { t ≤ day_minutes }
    ensures { Least (time_part f.now) t day_minutes result }
{
    if f[places::KIND] == kinds::CRON {
        return times_of(f).next(t);
    }
    if f[places::KIND] == kinds::RULE {
        return one::least_one(f[places::START] % DAY, t, DAY);
    }
    DAY
}

// One more than the greatest one below t; 0 where there is none.
pub(crate) fn last_time(f: &Row, t: u64) -> u64
    requires { t ≤ day_minutes }
    ensures { Last (time_part f.now) 0 t result }
{
    if f[places::KIND] == kinds::CRON {
        return times_of(f).last(t);
    }
    if f[places::KIND] == kinds::RULE {
        return one::last_one(f[places::START] % DAY, 0, t);
    }
    0
}
