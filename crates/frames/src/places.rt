// A frame as a row of numbers: its kind first, and which number stands where. No enum: the steps of the search hand a row on by one address.
ghost use Rattle.std.specs.Prelude.{◌≡◌, replicate};
ghost use Rattle.frames.specs.Kinds.{most_frames, row_numbers};

pub const NUMBERS: usize = 18;

pub type Row = [u64; NUMBERS];

// A plan has at most so many frames before its end frame.
pub const FRAMES: usize = 64;

pub type Rows = [Row; FRAMES];

// Rows to fill. Ones, since a fill by zeros is a memset, which may go byte by byte.
pub fn fresh_rows() -> Rows
    ensures { result ≡ replicate most_frames (replicate row_numbers 1) }
{
    let row = [1u64; NUMBERS];
    [row; FRAMES]
}

pub const KIND: usize = 0;

// Frame 01; frames 05 and 06.
pub const OFFSET: usize = 1;

pub const MINUTE: usize = 1;

// Frame FF.
pub const COUNT: usize = 1;

// Frame 02.
pub const AT: usize = 1;

pub const NEW_OFFSET: usize = 2;

// Frame 03.
pub const MINUTES: usize = 1;

pub const HOURS: usize = 2;

pub const DAYS: usize = 3;

pub const MONTHS: usize = 4;

pub const WEEKDAYS: usize = 5;

pub const FLAGS: usize = 6;

// Frame 04; its weekdays stand where those of frame 03 do.
pub const FREQUENCY: usize = 1;

pub const INTERVAL: usize = 2;

pub const START: usize = 3;

pub const LAST: usize = 4;

pub const DAYS_FRONT: usize = 6;

pub const DAYS_BACK: usize = 7;

pub const ORDINALS_FRONT: usize = 8;

pub const ORDINALS_BACK: usize = 9;

pub const POSITIONS_FRONT: usize = 10;

pub const POSITIONS_BACK: usize = 11;

pub const RULE_MONTHS: usize = 12;
// The first of the numbers that a walk keeps beside a frame; the one before it is the next that frames may need.
pub const FREE: usize = 14;
