// Days, dates, weekdays and ISO weeks, year 1 to 9999, and the window 2000 to 2099 by month. Days count from 0001-01-01, day 0.
#![tactic(auto)]

pub mod date;
pub mod iso;
pub mod window;
pub mod year;
