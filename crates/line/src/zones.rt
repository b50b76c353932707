// The lines Z and T.
ghost use Rattle.std.specs.Prelude.{◌≡◌};
ghost use Rattle.lines.specs.Bytes.{byte};
ghost use Rattle.sheet.specs.Form.{zone as zone_form, form_by, shift_of, change_of};
ghost use Rattle.sheet.specs.Words.{pieces};
ghost use Rattle.line.specs.Lined.{context_as, lined_form};

use crate::places::{change_stands, standing, zone_stands};
use crate::times::time_and_space;
use crate::{Context, FRONT, Refusal};
use plan::Frame;
use words::times::{local_minute, offset_of};
use zone::{Transition, limits};

// "Offset before the first transition."
#[tactic(auto, using(crate::proofs::Offsets::zone_not, crate::proofs::Offsets::zone_range, crate::proofs::Offsets::zone_taken, crate::proofs::Reading::not_read))]
pub(crate) fn zone_line(text: &[u8], c: Context) -> Result<Frame, Refusal>
    ensures { result ≡ lined_form (context_as c) (form_by zone_form (shift_of text.now)) }
{
    let (shift, end) = FRONT.shift(text).ok_or(Refusal::Form)?;
    standing(text, end, zone_stands(c.before))?;
    let offset = offset_of(shift).ok_or(Refusal::Range)?;
    Ok(Frame::Offset(offset))
}

// "UTC time, space, new offset."
#[tactic(auto, using(crate::proofs::Changes::minute_small, crate::proofs::Changes::change_no_time, crate::proofs::Changes::change_no_shift, crate::proofs::Changes::change_no_minute, crate::proofs::Changes::change_no_offset, crate::proofs::Changes::change_past_limits, crate::proofs::Changes::change_taken, crate::proofs::Reading::not_read))]
pub(crate) fn change_line(text: &[u8], c: Context) -> Result<Frame, Refusal>
    ensures { result ≡ lined_form (context_as c) (change_of (pieces (byte " ") text.now)) }
{
    let (time, after) = time_and_space(text).ok_or(Refusal::Form)?;
    let (shift, end) = after.shift(text).ok_or(Refusal::Form)?;
    standing(text, end, change_stands(c.before))?;
    let minute = local_minute(time).ok_or(Refusal::Range)?;
    let offset = offset_of(shift).ok_or(Refusal::Range)?;
    let transition = Transition {
        at: minute + zone::BIAS,
        offset,
    };
    if !limits::under_limits(c.low, c.offset, transition) {
        return Err(Refusal::Limits);
    }
    Ok(Frame::Change(transition))
}
