// The minutes of a day, 0 to 1,439, that a mask of hours and a mask of minutes hold.
ghost use Rattle.std.specs.Prelude.{◌≡◌, ◌*◌, ◌≤◌};
ghost use Rattle.masks.specs.Times.{next_time, last_time};

use crate::{next_bit, previous_bit, test};
use calendar::window::{DAY, LAST_OF_DAY};

// The hours that are held, and the minutes of each of them.
#[derive(Clone, Copy)]
pub struct Times {
    pub hours: u64,
    pub minutes: u64,
}

impl Times {
    // The least held minute from the start of an hour on.
    fn from_hour(self, hour: u64) -> u64
        ensures { result ≡ next_time self.hours self.minutes (60 * hour) }
    {
        let next = next_bit(self.hours, hour);
        if 23 < next {
            return DAY;
        }
        let first = next_bit(self.minutes, 0);
        if 59 < first {
            return DAY;
        }
        60 * next + first
    }

    // One more than the greatest held minute before the start of an hour.
    fn before_hour(self, hour: u64) -> u64
        requires { hour ≤ 24 }
        ensures { result ≡ last_time self.hours self.minutes (60 * hour) }
    {
        let past = previous_bit(self.hours, hour);
        let end = previous_bit(self.minutes, 60);
        if past == 0 || end == 0 {
            return 0;
        }
        60 * (past - 1) + end
    }

    // The least held minute at or above t; 1,440 where there is none.
    pub fn next(self, t: u64) -> u64
        ensures { result ≡ next_time self.hours self.minutes t }
    {
        if LAST_OF_DAY < t {
            return DAY;
        }
        if test(self.hours, t / 60) {
            let minute = next_bit(self.minutes, t % 60);
            if minute < 60 {
                return t / 60 * 60 + minute;
            }
        }
        self.from_hour(t / 60 + 1)
    }

    // One more than the greatest held minute below t; 0 where there is none.
    pub fn last(self, t: u64) -> u64
        ensures { result ≡ last_time self.hours self.minutes t }
    {
        if LAST_OF_DAY < t {
            return self.before_hour(24);
        }
        if test(self.hours, t / 60) {
            let end = previous_bit(self.minutes, t % 60);
            if 0 < end {
                return t / 60 * 60 + end;
            }
        }
        self.before_hour(t / 60)
    }
}
