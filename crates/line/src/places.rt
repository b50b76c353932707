// Where a line may stand, by what stands before it.
ghost use Rattle.std.specs.Prelude.{◌≡◌, length};
ghost use Rattle.line.specs.Lined.{zone_stands, change_stands, other_stands, standing};

use crate::{Before, Refusal};
use words::cursor::Cursor;

const MOST_CHANGES: u64 = zone::CHANGES as u64;

pub(crate) fn zone_stands(before: Before) -> bool
    ensures { result ≡ zone_stands before }
{
    matches!(before, Before::Start)
}

pub(crate) fn change_stands(before: Before) -> bool
    ensures { result ≡ change_stands before }
{
    matches!(before, Before::Zoned(k) if k < MOST_CHANGES)
}

pub(crate) fn other_stands(before: Before) -> bool
    ensures { result ≡ other_stands before }
{
    matches!(before, Before::Zoned(_) | Before::Lines)
}

// A form ends with the line, and then may stand where it does.
#[tactic(auto, unfolding(crate::specs::Lined::standing))]
pub(crate) fn standing(text: &[u8], end: Cursor, stands: bool) -> Result<(), Refusal>
    ensures { result ≡ standing (length text.now) end.at stands (Ok tt) }
{
    if end.at != text.len() {
        return Err(Refusal::Form);
    }
    if !stands {
        return Err(Refusal::Place);
    }
    Ok(())
}
