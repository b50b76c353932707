// A sheet line with what stands before it: its frame, or the first refusal that applies.
#![tactic(auto)]

ghost use Rattle.std.specs.Prelude.{◌≡◌};
ghost use Rattle.sheet.specs.Form.{tagged};
ghost use Rattle.line.specs.Lined.{number_of, unruled_as, context_as, lined_form, lined};

use plan::Frame;
use rules::Unruled;
use words::cursor::{Cursor, SPACE};

mod bytes;
mod places;
mod schedules;
mod times;
mod zones;

// Where a line's text begins, behind its tag and the space.
const FRONT: Cursor = Cursor { at: 0 };

// What stands before a line: nothing, a Z and so many T, or more.
#[derive(Clone, Copy)]
pub enum Before {
    Start,
    Zoned(u64),
    Lines,
}

// With it, the least instant of a next transition and the offset before it, both moved up by a day.
#[derive(Clone, Copy)]
pub struct Context {
    pub before: Before,
    pub low: u64,
    pub offset: u64,
}

// The refusals of a line, the first that applies first.
#[derive(Clone, Copy, PartialEq, Eq, Debug)]
pub enum Refusal {
    // Too long, or a byte of no line.
    Bytes = 2,
    Form,
    Place,
    Range,
    // Parts that do not go together.
    Parts,
    // Of a transition.
    Limits,
    // The start is no occurrence of its rule.
    Start,
}

impl Refusal {
    pub fn number(self) -> u64
        ensures { result ≡ number_of self }
    {
        self as u64
    }
}

impl From<Unruled> for Refusal {
    ghost from_gives = { λ unruled refusal. refusal ≡ unruled_as unruled };

    fn from(unruled: Unruled) -> Refusal {
        match unruled {
            Unruled::Apart => Refusal::Parts,
            Unruled::NoStart => Refusal::Start,
        }
    }
}

// A line by its tag letter and the text behind the space.
#[tactic(auto, using(crate::proofs::Tagged::other_tag), unfolding(sheet::specs::Form::tagged, crate::specs::Lined::lined_form))]
fn by_tag(tag: u8, text: &[u8], c: Context) -> Result<Frame, Refusal>
    ensures { result ≡ lined_form (context_as c) (tagged tag text.now) }
{
    match tag {
        b'Z' => zones::zone_line(text, c),
        b'T' => zones::change_line(text, c),
        b'C' => schedules::cron_line(text, c),
        b'R' => schedules::rule_line(text, c),
        b'D' => times::time_line(text, c, false),
        b'X' => times::time_line(text, c, true),
        _ => Err(Refusal::Form),
    }
}

// A line without its LF.
#[tactic(auto, using(crate::proofs::Tagged::bad_bytes, crate::proofs::Tagged::too_short, crate::proofs::Tagged::no_space, crate::proofs::Tagged::by_its_tag))]
pub fn read(line: &[u8], c: Context) -> Result<Frame, Refusal>
    ensures { result ≡ lined (context_as c) line.now }
{
    if !bytes::good(line) {
        return Err(Refusal::Bytes);
    }
    let [tag, SPACE, text @ ..] = line else {
        return Err(Refusal::Form);
    };
    by_tag(*tag, text, c)
}
