// Wall clock and instants.
#![tactic(auto)]

ghost use Rattle.std.specs.Prelude.{◌≡◌};
ghost use Rattle.zone.specs.Zone.{offset_at};
ghost use Rattle.zone.specs.Held.{offsets_of};

pub mod limits;
pub mod stretch;

// Instants and offsets are moved up by a day.
pub const BIAS: u64 = calendar::window::DAY;
// An instant and its offset together.
pub const BIASES: u64 = 2 * BIAS;
// A zone has at most so many transitions.
pub const CHANGES: usize = 32;

// From instant `at` on the offset is `offset`.
#[repr(C)]
#[derive(Clone, Copy)]
pub struct Transition {
    pub at: u64,
    pub offset: u64,
}

// The offset before the first transition, and the transitions: the first `count` of `changes`, as the C interface of probe has them.
#[repr(C)]
#[derive(Clone, Copy)]
pub struct Zone {
    pub first: u64,
    pub count: usize,
    pub changes: [Transition; CHANGES],
}

impl Zone {
    // The transitions that count.
    #[tactic(auto, using(crate::proofs::Held::held_front))]
    pub fn held(&self) -> &[Transition]
        ensures { result.now ≡ (offsets_of self.now).changes }
    {
        &self.changes[..self.count.min(CHANGES)]
    }
}

// The offset at an instant, over any transitions.
#[tactic(auto, using(crate::proofs::Over::at_start, crate::proofs::Over::since, crate::proofs::Over::passed_over, crate::proofs::Over::at_end))]
pub fn offset_over(changes: &[Transition], first: u64, instant: u64) -> u64
    ensures { result ≡ offset_at (record { first = first; changes = changes.now }) instant }
{
    let mut offset = first;
    for change in changes {
        if change.at <= instant {
            offset = change.offset;
        }
    }
    offset
}

// The offset of a zone at an instant.
#[tactic(auto, unfolding(crate::specs::Held::offsets_of))]
pub fn offset_at(zone: &Zone, instant: u64) -> u64
    ensures { result ≡ offset_at (offsets_of zone.now) instant }
{
    offset_over(zone.held(), zone.first, instant)
}
