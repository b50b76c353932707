// One stretch of local minutes, all of which become instants by one offset.
ghost use Rattle.std.specs.Prelude.{◌≡◌, ◌+◌, ◌≤◌};
ghost use Rattle.zone.specs.Zone.{greatest_offset};
ghost use Rattle.signed.specs.Bias.{last_instant};
ghost use Rattle.calendar.specs.Window.{window_minutes};
ghost use Rattle.held.specs.Lists.{list_held};
ghost use Rattle.next.specs.Nearest.{first_after, end_at, Later, Earlier, Shifted, Earliest, Latest};

use frames::places::Row;
use held::lists::{list_last, list_least};
use zone::BIASES;

// The last minute below an end, moved up: the end is one more than it.
const BIASES_LESS_ONE: u64 = BIASES - 1;

// The local minutes from `from` up to `end`. An instant, or one past all, stays a number bounded by a clause: it is compared with others alone.
#[derive(Clone, Copy)]
pub(crate) struct Stretch {
    pub offset: u64,
    pub from: u64,
    pub end: u64,
    ghost in_range: { offset ≤ greatest_offset },
    ghost in_window: { end ≤ window_minutes },
}

impl Stretch {
    // The first minute whose instant is later than `instant`.
    fn first_after(self, instant: u64) -> u64
        requires { instant ≤ last_instant + 1 }
        ensures { result ≡ first_after self.offset self.from instant }
    {
        self.from
            .max((instant + 1 + self.offset).saturating_sub(BIASES))
    }

    // Where the minutes whose instant is earlier than `instant` end.
    fn end_at(self, instant: u64) -> u64
        requires { instant ≤ last_instant + 1 }
        ensures { result ≡ end_at self.offset self.end instant }
    {
        self.end.min((instant + self.offset).saturating_sub(BIASES))
    }

    // The earliest instant after `asked` of a held minute, or `best` where none is earlier.
    pub(crate) fn next(self, fs: &[Row], asked: u64, best: u64) -> u64
        requires { (asked ≤ last_instant) × (best ≤ last_instant + 1) }
        ensures { Earliest (Later asked (Shifted (list_held fs.now) self.offset self.from self.end)) best result }
    {
        let low = self.first_after(asked);
        let high = self.end_at(best);
        if high <= low {
            return best;
        }
        let minute = list_least(fs, low, high);
        if high <= minute {
            return best;
        }
        minute + BIASES - self.offset
    }

    // The latest instant before `asked` of a held minute, or `best` where none is later.
    pub(crate) fn previous(self, fs: &[Row], asked: u64, best: u64) -> u64
        requires { (asked ≤ last_instant) × (best ≤ last_instant + 1) }
        ensures { Latest (Earlier asked (Shifted (list_held fs.now) self.offset self.from self.end)) best result }
    {
        let low = self.first_after(best);
        let high = self.end_at(asked);
        if high <= low {
            return best;
        }
        let past = list_last(fs, low, high);
        if past <= low {
            return best;
        }
        past + BIASES_LESS_ONE - self.offset
    }
}
