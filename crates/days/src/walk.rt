// What a walk over days keeps beside its frame, in numbers that no frame has.
use frames::places::FREE;

// The month of a rule's start.
pub(crate) const START_MONTH: usize = FREE;
// The month of the walk's last day.
pub(crate) const LAST_MONTH: usize = FREE + 1;
// The last day of the walk.
pub(crate) const LAST_DAY: usize = FREE + 2;
// The counts of the year of that month, where the frame's positions go by them.
pub(crate) const COUNTS: usize = FREE + 3;
