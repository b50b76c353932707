// The local minutes in stretches, and the instant of a local minute.
ghost use Rattle.std.specs.Prelude.{true, ◌≡◌, ◌<◌};
ghost use Rattle.calendar.specs.Window.{window_minutes};
ghost use Rattle.zone.specs.Held.{offsets_of};
ghost use Rattle.zone.specs.Stretches.{boundary, stretch_offset, stretch_of, stretch_local, instant_of_local};
ghost use Rattle.zone.specs.Zone.{zone_good};

use crate::{BIASES, Transition, Zone};
use calendar::window;

// The local minute at which the stretch before a transition ends, held to the window.
#[tactic(auto, unfolding(crate::specs::Stretches::boundary))]
pub fn end_before(before: u64, change: Transition) -> u64
    ensures { result ≡ boundary before change }
{
    let end = change.at.saturating_add(before.max(change.offset));
    end.saturating_sub(BIASES).min(window::MINUTES)
}

// The offset of stretch k: that after k transitions, or after all.
#[tactic(auto, using(crate::proofs::Held::offset_none, crate::proofs::Held::offset_some), unfolding(crate::specs::Held::offsets_of))]
pub fn stretch_offset(zone: &Zone, k: usize) -> u64
    ensures { result ≡ stretch_offset (offsets_of zone.now) k }
{
    let held = zone.held();
    match held[..k.min(held.len())].last() {
        Some(change) => change.offset,
        None => zone.first,
    }
}

// The stretch of a local minute of the window.
#[tactic(auto, using(crate::proofs::Walk::at_start, crate::proofs::Walk::at_stretch, crate::proofs::Walk::passed, crate::proofs::Walk::at_end), unfolding(crate::specs::Held::offsets_of))]
fn stretch_of(zone: &Zone, m: u64) -> usize
    requires { m < window_minutes }
    ensures { result ≡ stretch_of (offsets_of zone.now) m }
{
    let held = zone.held();
    let mut before = zone.first;
    for (k, change) in held.iter().enumerate() {
        if m < end_before(before, *change) {
            return k;
        }
        before = change.offset;
    }
    held.len()
}

// The instant of a local minute of the window: in a gap by the offset before it, in a doubled hour of the first pass.
#[tactic(auto, using(crate::proofs::Meaning::instant_by_stretch), unfolding(crate::specs::Stretches::stretch_local, crate::specs::Stretches::instant_of_local, crate::specs::Stretches::stretch_instant))]
pub fn instant_of_local(zone: &Zone, m: u64) -> Option<u64>
    ensures stretch { result ≡ stretch_local (offsets_of zone.now) m }
    ensures meaning { zone_good (offsets_of zone.now) ≡ true → result ≡ instant_of_local (offsets_of zone.now) m }
{
    if window::LAST_MINUTE < m {
        return None;
    }
    let offset = stretch_offset(zone, stretch_of(zone, m));
    // Less than 0 only in a zone that is not under the limits.
    Some((m + BIASES).saturating_sub(offset))
}
