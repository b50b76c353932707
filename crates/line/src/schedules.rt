// The lines C and R.
ghost use Rattle.std.specs.Prelude.{◌≡◌};
ghost use Rattle.lines.specs.Bytes.{byte};
ghost use Rattle.sheet.specs.Form.{field_of, cron_of, rule_of};
ghost use Rattle.sheet.specs.Words.{pieces, each_of};
ghost use Rattle.line.specs.Lined.{context_as, lined_form};

use crate::places::{other_stands, standing};
use crate::times::time_and_space;
use crate::{Context, FRONT, Refusal};
use fields::five::five_at;
use parts::given::parts_at;
use plan::Frame;
use rules::rule_of;
use words::times::local_minute;

// "Five cron fields, one space between."
#[tactic(auto, using(crate::proofs::Fives::cron_not, crate::proofs::Fives::cron_range, crate::proofs::Fives::cron_taken, crate::proofs::Reading::not_read))]
pub(crate) fn cron_line(text: &[u8], c: Context) -> Result<Frame, Refusal>
    ensures { result ≡ lined_form (context_as c) (cron_of (each_of field_of (pieces (byte " ") text.now))) }
{
    let (five, end) = five_at(text, FRONT).ok_or(Refusal::Form)?;
    standing(text, end, other_stands(c.before))?;
    let frame = five.ok_or(Refusal::Range)?;
    Ok(Frame::Cron(frame))
}

// "Local start time, space, rule parts separated by `;`."
#[tactic(auto, using(crate::proofs::Ruling::rule_no_time, crate::proofs::Ruling::rule_no_parts, crate::proofs::Ruling::rule_no_minute, crate::proofs::Ruling::rule_range, crate::proofs::Ruling::rule_taken, crate::proofs::Reading::not_read))]
pub(crate) fn rule_line(text: &[u8], c: Context) -> Result<Frame, Refusal>
    ensures { result ≡ lined_form (context_as c) (rule_of (pieces (byte " ") text.now)) }
{
    let (time, after) = time_and_space(text).ok_or(Refusal::Form)?;
    let (parts, end) = parts_at(text, after).ok_or(Refusal::Form)?;
    standing(text, end, other_stands(c.before))?;
    let start = local_minute(time).ok_or(Refusal::Range)?;
    if !parts.good {
        return Err(Refusal::Range);
    }
    let frame = rule_of(parts, start)?;
    Ok(Frame::Rule(frame))
}
