// All lines of a sheet, one after the other.
ghost use Rattle.std.specs.Prelude.{true, map, ◌≡◌, ◌≤◌, length};
ghost use Rattle.std.proofs.lemmas.List.Edits.{sets};
ghost use Rattle.lines.specs.Lines.{lines_in};
ghost use Rattle.plan.specs.Rows.{row_of};
ghost use Rattle.compile.specs.Reading.{sheet_frames, frames_read, read_as, last_as, small};

use crate::step::{State, start, step};
use crate::{Reason, Refusal};
use frames::places::Rows;

fn bad(refusal: line::Refusal, line: usize, at: usize, length: usize) -> Refusal
    ensures { result ≡ record { reason = Reason.Line refusal; line = line; at = at; length = length } }
{
    Refusal {
        reason: Reason::Line(refusal),
        line,
        at,
        length,
    }
}

// After the last line: "an empty sheet (line 1)".
#[tactic(auto, unfolding(crate::specs::Reasons::reason_with, line::specs::Lined::refusal_with))]
fn ended(state: State) -> Result<(usize, usize), Refusal>
    ensures { result ≡ last_as state.lines state.frames state.bytes }
{
    if state.lines == 0 {
        return Err(bad(line::Refusal::Place, 1, 0, 0));
    }
    Ok((state.frames, state.bytes))
}

// The number of frames and the bytes of their plan lines, or the first bad line, which decides. The frames before it stand in the first rows.
pub(crate) fn read(sheet: &[u8], rows: &mut Rows) -> Result<(usize, usize), Refusal>
    requires { lines_in sheet.now ≤ 64 }
    ensures answer { result ≡ read_as (sheet_frames sheet.now) }
    ensures rows { rows.new ≡ sets rows.old 0 (map row_of (frames_read sheet.now)) }
    ensures small { small result ≡ true }
{
    let mut at = 0;
    let mut state = start();
    // A line begins where the one before it ended: an iterator over lines would keep both places too.
    while at < sheet.len() {
        let end = lines::line_end(sheet, at);
        if sheet.len() <= end {
            return Err(bad(line::Refusal::Bytes, state.lines + 1, at, end - at));
        }
        // By a match: a closure for `map_err` would take as many lines.
        state = match step(state, &sheet[at..end], rows) {
            Ok(next) => next,
            Err(refusal) => return Err(bad(refusal, state.lines + 1, at, end - at)),
        };
        at = end + 1;
    }
    ended(state)
}
