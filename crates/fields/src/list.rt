// "An element list is an element, or an element, a comma and an element list."
ghost use Rattle.std.specs.Prelude.{◌≡◌, ℕ, ◌-◌, ◌^◌, ◌<◌, length, true};
ghost use Rattle.fields.specs.Marked.{listed_as, ended_as, elements_at};

use crate::element::element_at;
use crate::field::CronField;
use crate::marks::Marks;
use words::cursor::{COMMA, Cursor};

// The elements from a place on, each marked: one, then, after a comma, the list of the remaining bytes. The place after them, or 0 for none.
// All that is passed is a word and so is the answer, so the call is a jump: a list takes no stack for an element.
fn rest_from<F: CronField>(t: &&[u8], at: usize, marks: &mut Marks) -> usize
    requires { length t.now.now < 2 ^ 64 }
    ensures { (left : ℕ) → length t.now.now - at < left → ended_as marks.new result ≡ listed_as F.LOW F.HIGH marks.old (elements_at t.now.now left at) }
{
    let s = *t;
    let Some((element, next)) = element_at(s, Cursor { at }) else {
        return 0;
    };
    *marks = marks.with_element::<F>(element);
    if next.byte(s) == COMMA {
        return rest_from::<F>(t, next.at + 1, marks);
    }
    next.at
}

// The list from a cursor on: what was marked and the place after it.
pub(crate) fn list_from<F: CronField>(s: &[u8], c: Cursor) -> Option<(Marks, Cursor)>
    ensures { (left : ℕ) → length s.now - c.at < left → result ≡ listed_as F.LOW F.HIGH (record { mask = 0; good = true }) (elements_at s.now left c.at) }
{
    let mut marks = Marks {
        mask: 0,
        good: true,
    };
    let end = rest_from::<F>(&s, c.at, &mut marks);
    if end == 0 {
        return None;
    }
    Some((marks, Cursor { at: end }))
}
