// One line of a plan where it stands.
ghost use Rattle.std.specs.Prelude.{◌≡◌};
ghost use Rattle.plan.specs.Taken.{number_good, is_end, allowed as allowed_at};
ghost use Rattle.load.specs.Loads.{before_of, allowed_of};

use crate::place;
use crate::place::Before;
use frames::places::FRAMES;
use plan::{Frame, text};

// At most 64 frames before the end frame, whose number is right.
#[tactic(auto, unfolding(plan::specs::Taken::number_good))]
fn number_good(n: usize, frame: Frame) -> bool
    ensures { result ≡ number_good n frame }
{
    match frame {
        Frame::End(k) => k == n as u64,
        _ => n < FRAMES,
    }
}

pub(crate) fn is_end(frame: Frame) -> bool
    ensures { result ≡ is_end frame }
{
    matches!(frame, Frame::End(_))
}

// The frame of a line after n frames, and what then stands before the next line; none where it is not allowed.
#[tactic(auto, using(crate::proofs::Places::allowed_unread, crate::proofs::Places::allowed_bad, crate::proofs::Places::allowed_not_placed, crate::proofs::Places::allowed_placed))]
pub(crate) fn allow(n: usize, before: Before, line: &[u8]) -> Option<(Frame, Before)>
    ensures { allowed_of result ≡ allowed_at n (before_of before) line.now }
{
    let frame = text::read(line)?;
    if !good::frame_good(frame) || !number_good(n, frame) {
        return None;
    }
    let after = place::place(before, frame)?;
    Some((frame, after))
}
