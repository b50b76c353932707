// Where a frame may stand: 01 first, then up to 32 of 02 under the zone limits, then others.
ghost use Rattle.std.specs.Prelude.{true, ◌≡◌, ◌+◌, ◌≤◌};
ghost use Rattle.calendar.specs.Window.{window_last};
ghost use Rattle.plan.specs.Taken.{zoned as zoned_at, frame_good, place as place_of};
ghost use Rattle.plan.specs.declared.Frame.{Frame};
ghost use Rattle.zone.specs.Zone.{bias};
ghost use Rattle.load.specs.Loads.{before_of, placed_of};

use plan::Frame;
use zone::{CHANGES, Transition, limits};

// The transitions so far, the least instant that the next may have, and the offset after them.
#[derive(Clone, Copy)]
pub(crate) struct Edge {
    pub changes: usize,
    pub low: u64,
    pub offset: u64,
}

// What stands before a line: nothing, a zone, or more than that.
#[derive(Clone, Copy)]
pub(crate) enum Before {
    Start,
    Zoned(Edge),
    Lines,
}

// One transition more.
#[tactic(auto, using(crate::proofs::Places::change_past, crate::proofs::Places::change_broken, crate::proofs::Places::change_good))]
fn change(edge: Edge, t: Transition) -> Option<Before>
    requires { t.at ≤ bias + window_last }
    ensures { placed_of result ≡ place_of (zoned_at edge.changes edge.low edge.offset) (Frame.Change t) }
{
    if CHANGES <= edge.changes || !limits::under_limits(edge.low, edge.offset, t) {
        return None;
    }
    Some(Before::Zoned(Edge {
        changes: edge.changes + 1,
        low: t.at + limits::DISTANCE,
        offset: t.offset,
    }))
}

// What stands before the next line, or none where the frame may not stand here.
#[tactic(auto, unfolding(plan::specs::Taken::place, plan::specs::Taken::frame_good))]
pub(crate) fn place(standing: Before, frame: Frame) -> Option<Before>
    requires { frame_good frame ≡ true }
    ensures { placed_of result ≡ place_of (before_of standing) frame }
{
    match (standing, frame) {
        (Before::Start, Frame::Offset(offset)) => Some(Before::Zoned(Edge {
            changes: 0,
            low: 0,
            offset,
        })),
        (Before::Zoned(edge), Frame::Change(t)) => change(edge, t),
        (Before::Start, _) | (_, Frame::Offset(_) | Frame::Change(_)) => None,
        _ => Some(Before::Lines),
    }
}
