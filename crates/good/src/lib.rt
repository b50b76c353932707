// A frame by itself: whether its numbers are ones that a plan may have.
#![tactic(auto)]

ghost use Rattle.std.specs.Prelude.{◌≡◌};
ghost use Rattle.plan.specs.Taken.{frame_good};

use calendar::window;
use cron::cron_good;
use plan::Frame;
use rule::rule_good;
use zone::limits;

mod bits;
mod cron;
pub mod rule;

// Whether a frame's numbers are allowed, wherever it stands.
#[tactic(auto, unfolding(plan::specs::Taken::frame_good))]
pub fn frame_good(frame: Frame) -> bool
    ensures { result ≡ frame_good frame }
{
    match frame {
        Frame::Offset(o) => limits::offset_in_range(o),
        Frame::Change(t) => limits::in_range(t),
        Frame::Cron(f) => cron_good(f),
        Frame::Rule(f) => rule_good(f),
        Frame::Extra(m) | Frame::Excepted(m) => m < window::MINUTES,
        Frame::End(_) => true,
    }
}
