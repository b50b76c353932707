// A sheet compiled to a plan in a lent buffer, or refused with a reason and a line.
#![tactic(auto)]

ghost use Rattle.std.specs.Prelude.{◌≡◌, length, take, drop};
ghost use Rattle.compile.specs.Answers.{compiled_as, left_in};
ghost use Rattle.compile.specs.Compiled.{compile as compile_of};
ghost use Rattle.compile.specs.Reasons.{reason_number};
ghost use Rattle.sheet.specs.Refusals.{too_long as too_long_of};

use frames::places::fresh_rows;
use plan::{Frame, text};

mod reading;
mod step;
mod writing;

// The most bytes of a sheet.
pub const MOST_BYTES: usize = 16448;

const MOST_LINES: usize = 64;

// Why a sheet is refused.
#[derive(Clone, Copy, PartialEq, Eq, Debug)]
pub enum Reason {
    TooLong,
    // The plan is longer than the lent buffer.
    NoRoom,
    Line(line::Refusal),
}

impl Reason {
    pub fn number(self) -> u64
        ensures { result ≡ reason_number self }
    {
        match self {
            Reason::TooLong => 1,
            Reason::Line(refusal) => refusal.number(),
            Reason::NoRoom => 9,
        }
    }
}

// A refusal: its reason, its line or 0, and the bad line's place and length in the sheet.
#[derive(Clone, Copy, PartialEq, Eq, Debug)]
pub struct Refusal {
    pub reason: Reason,
    pub line: usize,
    pub at: usize,
    pub length: usize,
}

// "Sheet over 16,448 bytes or over 64 lines."
#[tactic(auto, unfolding(sheet::specs::Refusals::too_long))]
fn too_long(sheet: &[u8]) -> bool
    ensures { result ≡ too_long_of sheet.now }
{
    MOST_BYTES < sheet.len() || MOST_LINES < lines::line_count(sheet)
}

// A refusal of the whole sheet.
fn whole(reason: Reason) -> Refusal
    ensures { result ≡ record { reason = reason; line = 0; at = 0; length = 0 } }
{
    Refusal {
        reason,
        line: 0,
        at: 0,
        length: 0,
    }
}

// The plan's length. Nothing is written before the whole sheet is taken and its plan fits.
pub fn compile(sheet: &[u8], plan: &mut [u8]) -> Result<usize, Refusal>
    ensures answer { result ≡ compiled_as (compile_of sheet.now (length plan.old)) }
    ensures plan { plan.new ≡ left_in plan.old (compile_of sheet.now (length plan.old)) }
{
    if too_long(sheet) {
        return Err(whole(Reason::TooLong));
    }
    let mut rows = fresh_rows();
    let (frames, bytes) = reading::read(sheet, &mut rows)?;
    let size = bytes + text::length_of(Frame::End(frames as u64));
    if plan.len() < size {
        return Err(whole(Reason::NoRoom));
    }
    writing::write(plan, &rows[..frames]);
    Ok(size)
}

// The bad line as a part of the sheet, without its LF.
pub fn bad_line(sheet: &[u8], refusal: Refusal) -> &[u8]
    ensures { result.now ≡ take refusal.length (drop refusal.at sheet.now) }
{
    let from = &sheet[refusal.at.min(sheet.len())..];
    &from[..refusal.length.min(from.len())]
}
