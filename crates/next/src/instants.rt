// The next and the previous instant: stretch by stretch, the best found so far bounding the search in the others.
ghost use Rattle.std.specs.Prelude.{true, ◌≡◌};
ghost use Rattle.held.specs.Lists.{list_held};
ghost use Rattle.zone.specs.Held.{offsets_of};
ghost use Rattle.zone.specs.Zone.{zone_good};
ghost use Rattle.next.specs.Instants.{InstantOf, NextOf, PreviousOf};

use crate::stretches::Stretch;
use calendar::window;
use frames::places::Row;
use signed::LAST_INSTANT;
use zone::Zone;
use zone::stretch::{end_before, stretch_offset};

// The first instant that none can have.
const NO_INSTANT: u64 = LAST_INSTANT + 1;

// The frames of a plan that is taken, as rows, and its zone.
#[derive(Clone, Copy)]
pub(crate) struct Opened<'a> {
    pub frames: &'a [Row],
    pub zone: &'a Zone,
    ghost limited: { zone_good (offsets_of zone.now) ≡ true },
}

impl Opened<'_> {
    // The earliest instant after `asked`.
    pub(crate) fn next(&self, asked: u64) -> Option<u64>
        ensures { NextOf (InstantOf (list_held self.now.frames.now) (offsets_of self.now.zone.now)) asked result }
    {
        let after = asked.min(LAST_INSTANT);
        let mut best = NO_INSTANT;
        let mut from = 0;
        let mut offset = self.zone.first;
        for change in self.zone.held() {
            let end = end_before(offset, *change);
            let stretch = Stretch { offset, from, end };
            best = stretch.next(self.frames, after, best);
            from = end;
            offset = change.offset;
        }
        let last = Stretch {
            offset,
            from,
            end: window::MINUTES,
        };
        let instant = last.next(self.frames, after, best);
        (instant < NO_INSTANT).then_some(instant)
    }

    // The latest instant before `asked`.
    pub(crate) fn previous(&self, asked: u64) -> Option<u64>
        ensures { PreviousOf (InstantOf (list_held self.now.frames.now) (offsets_of self.now.zone.now)) asked result }
    {
        let before = asked.min(LAST_INSTANT);
        let held = self.zone.held();
        let mut best = 0;
        let mut end = window::MINUTES;
        // By its number, since the offset before a transition is that of the stretch with it.
        for k in (0..held.len()).rev() {
            let change = held[k];
            let from = end_before(stretch_offset(self.zone, k), change);
            let stretch = Stretch {
                offset: change.offset,
                from,
                end,
            };
            best = stretch.previous(self.frames, before, best);
            end = from;
        }
        let first = Stretch {
            offset: self.zone.first,
            from: 0,
            end,
        };
        let instant = first.previous(self.frames, before, best);
        (0 < instant).then_some(instant)
    }
}
