// *Last* of a rule's frame.
ghost use Rattle.std.specs.Prelude.{◌≡◌};
ghost use Rattle.rules.specs.Ruled.{count_last, last_in};

use calendar::window;
use frames::Rule;
use parts::given::Parts;
use plan::{Frame, text};

#[tactic(auto, using(crate::proofs::Lasts::count_last_by))]
fn count_last(f: Rule, count: u64) -> u64
    ensures { result ≡ count_last f count }
{
    let row = text::row_of(Frame::Rule(f));
    let day = count::nth_day(&row, count, f.start / window::DAY);
    if window::DAYS <= day {
        return window::LAST_MINUTE;
    }
    window::DAY * day + f.start % window::DAY
}

#[tactic(auto, unfolding(crate::specs::Ruled::last_in))]
pub(crate) fn last_in(p: Parts, f: Rule) -> u64
    ensures { result ≡ last_in p f }
{
    match (p.until, p.count) {
        (Some(until), _) => until,
        (None, Some(n)) => count_last(f, n),
        (None, None) => window::LAST_MINUTE,
    }
}
