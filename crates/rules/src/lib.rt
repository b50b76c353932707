// A rule's frame from its parts in numbers and its start.
#![tactic(auto)]

ghost use Rattle.std.specs.Prelude.{◌≡◌};
ghost use Rattle.rules.specs.Ruled.{neither_in, by_frequency_in, together_in, start_held_in, ruled_from};

use frames::{Rule, kinds};
use good::rule::start_held;
use parts::given::Parts;

mod frame;
mod last;

// Why parts make no rule.
#[derive(Clone, Copy, PartialEq, Eq, Debug)]
pub enum Unruled {
    // They don't go together.
    Apart,
    // The start is no occurrence, or after UNTIL.
    NoStart,
}

// Neither BYDAY nor BYMONTHDAY is given.
fn neither(p: Parts) -> bool
    ensures { result ≡ neither_in p }
{
    p.weekdays.is_none() && p.days.is_none()
}

#[tactic(auto, unfolding(crate::specs::Ruled::by_frequency_in))]
fn by_frequency(p: Parts) -> bool
    ensures { result ≡ by_frequency_in p }
{
    let ordinal = p.weekdays.is_some_and(|w| w.ordinal);
    let placed = !(p.positions.is_some() && neither(p));
    match p.frequency {
        kinds::DAILY => !ordinal && p.positions.is_none(),
        kinds::WEEKLY => !ordinal && p.positions.is_none() && p.days.is_none(),
        kinds::MONTHLY => placed,
        kinds::YEARLY => !(ordinal && p.months.is_none()) && placed,
        _ => false,
    }
}

// Whether the parts go together.
#[tactic(auto, unfolding(crate::specs::Ruled::together_in))]
fn together(p: Parts) -> bool
    ensures { result ≡ together_in p }
{
    !p.twice && !(p.count.is_some() && p.until.is_some()) && by_frequency(p)
}

// The start is an occurrence, and not after UNTIL. In line, as what it calls: the row that the search goes by then lies beside the parts.
#[inline(always)]
#[tactic(auto, unfolding(crate::specs::Ruled::start_held_in))]
fn start_held_in(p: Parts, f: Rule) -> bool
    ensures { result ≡ start_held_in p f }
{
    start_held(f) && p.until.is_none_or(|until| f.start <= until)
}

// The frame of a rule; outside the window no start is an occurrence.
#[inline(always)]
#[tactic(auto, unfolding(crate::specs::Ruled::ruled_from))]
pub fn rule_of(p: Parts, start: u64) -> Result<Rule, Unruled>
    ensures { result ≡ ruled_from p start }
{
    if !together(p) {
        return Err(Unruled::Apart);
    }
    let f = frame::endless(p, start);
    if !start_held_in(p, f) {
        return Err(Unruled::NoStart);
    }
    let last = last::last_in(p, f);
    Ok(Rule { last, ..f })
}
