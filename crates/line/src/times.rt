// The lines D and X, and a time with more behind it.
ghost use Rattle.std.specs.Prelude.{cond, ◌≡◌};
ghost use Rattle.sheet.specs.Form.{extra, except, form_by, time_of};
ghost use Rattle.words.specs.Reads.{time_at};
ghost use Rattle.line.specs.Lined.{context_as, lined_form, spaced};

use crate::places::{other_stands, standing};
use crate::{Context, FRONT, Refusal};
use plan::Frame;
use words::cursor::{Cursor, SPACE, Time};
use words::times::local_minute;

// The time at a text's front, and the place after the space behind it.
pub(crate) fn time_and_space(text: &[u8]) -> Option<(Time, Cursor)>
    ensures { result ≡ spaced text.now (time_at text.now 0) }
{
    let (time, end) = FRONT.time(text)?;
    if end.byte(text) != SPACE {
        return None;
    }
    Some((time, Cursor { at: end.at + 1 }))
}

// D and X by a bool: one promise says both, and two functions would have its proof twice.
// "One extra local time", "one excepted local time".
#[inline(always)]
#[tactic(auto, using(crate::proofs::Moments::moment_not, crate::proofs::Moments::moment_standing, crate::proofs::Moments::moment_range, crate::proofs::Moments::except_taken, crate::proofs::Moments::extra_taken, crate::proofs::Reading::not_read))]
pub(crate) fn time_line(text: &[u8], c: Context, excepted: bool) -> Result<Frame, Refusal>
    ensures { result ≡ lined_form (context_as c) (form_by (cond excepted except extra) (time_of text.now)) }
{
    let (time, end) = FRONT.time(text).ok_or(Refusal::Form)?;
    standing(text, end, other_stands(c.before))?;
    let minute = local_minute(time).ok_or(Refusal::Range)?;
    if excepted {
        return Ok(Frame::Excepted(minute));
    }
    Ok(Frame::Extra(minute))
}
