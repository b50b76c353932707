// "An element is a number or two numbers with `-`, both ends counted."
ghost use Rattle.std.specs.Prelude.{◌≡◌};
ghost use Rattle.fields.specs.Elements.{element_at};

use words::cursor::Cursor;

const DASH: u8 = b'-';

// One number or both ends of a range.
#[derive(Clone, Copy)]
pub enum Element {
    One(u64),
    Range(u64, u64),
}

#[tactic(auto, using(words::proofs::Counting::byte_within), unfolding(crate::specs::Elements::element_at))]
pub fn element_at(s: &[u8], c: Cursor) -> Option<(Element, Cursor)>
    ensures { result ≡ element_at s.now c.at }
{
    let (first, next) = c.number(s)?;
    if next.byte(s) != DASH {
        return Some((Element::One(first), next));
    }
    let dash = Cursor { at: next.at + 1 };
    let (last, after) = dash.number(s)?;
    Some((Element::Range(first, last), after))
}
