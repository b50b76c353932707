// What the limits of a rule ask of a month.
ghost use Rattle.std.specs.Prelude.{◌≡◌, ◌≤◌, ◌<◌};
ghost use Rattle.calendar.specs.Window.{month_first, month_days, local_weekday, window_months};

use calendar::{window, year};

// A month's first weekday, and how many days it has.
#[derive(Clone, Copy)]
pub(crate) struct Shape {
    pub(crate) first: u64,
    pub(crate) len: u64,
    ghost bounded: { (first < 7) × (28 ≤ len) × (len ≤ 31) },
}

impl Shape {
    // Of month k of the window.
    pub(crate) fn of(k: u64) -> Self
        requires { k < window_months }
        ensures { (result.first ≡ local_weekday (month_first k)) × (result.len ≡ month_days k) }
    {
        Shape {
            first: year::weekday(window::FIRST_DAY + window::month_first(k)),
            len: window::month_days(k),
        }
    }
}
