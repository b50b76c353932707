// The kinds of frames, and a rule's frequencies: numbers and no enum, since the byte of a plan may be any number.
pub const OFFSET: u64 = 1;

pub const CHANGE: u64 = 2;

pub const CRON: u64 = 3;

pub const RULE: u64 = 4;

pub const EXTRA: u64 = 5;

pub const EXCEPTED: u64 = 6;

pub const END: u64 = 255;

pub const DAILY: u64 = 1;

pub const WEEKLY: u64 = 2;

pub const MONTHLY: u64 = 3;

pub const YEARLY: u64 = 4;
// The bits of a cron frame's flags: which of its fields are restricted.
pub const DAY_FLAG: u64 = 0;

pub const WEEKDAY_FLAG: u64 = 1;

pub const MONTH_FLAG: u64 = 2;
