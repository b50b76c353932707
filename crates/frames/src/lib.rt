// One cron or rule frame: its numbers, and the days of a month that it holds.
#![tactic(auto)]

pub mod kinds;
pub mod limits;
pub mod months;
pub mod numbers;
mod picks;
pub mod places;
mod shape;
mod turns;
pub mod years;

// Frame 03: the masks of the five fields; flag bit 0 says that the day of month is restricted, bit 1 that the day of week is, bit 2 that the month is. Flags and frequencies are numbers, as the bytes of a plan are.
#[derive(Clone, Copy)]
pub struct Cron {
    pub minutes: u64,
    pub hours: u64,
    pub days: u64,
    pub months: u64,
    pub weekdays: u64,
    pub flags: u64,
}

// Bits counted from the front, and bits counted from the end.
#[derive(Clone, Copy)]
pub struct Ends {
    pub front: u64,
    pub back: u64,
}

// Frame 04: frequency 1 daily, 2 weekly, 3 monthly, 4 yearly. The ordinals are five bytes, a weekday mask each, the first the highest.
#[derive(Clone, Copy)]
pub struct Rule {
    pub frequency: u64,
    pub interval: u64,
    pub start: u64,
    pub last: u64,
    pub weekdays: u64,
    pub days: Ends,
    pub ordinals: Ends,
    pub positions: Ends,
    pub months: u64,
}
