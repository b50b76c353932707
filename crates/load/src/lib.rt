// The load check: whether a plan is taken, and its frames as rows of numbers.
#![tactic(auto)]

ghost use Rattle.std.specs.Prelude.{map, ◌≡◌, ◌≤◌};
ghost use Rattle.std.proofs.lemmas.List.Edits.{sets};
ghost use Rattle.plan.specs.Rows.{row_of};
ghost use Rattle.plan.specs.Taken.{load as load_of};
ghost use Rattle.load.specs.Loads.{ended_as, loaded_as, read_frames};

use frames::places::{Rows, fresh_rows};
use place::Before;
use plan::text;

mod line;
pub mod offsets;
mod place;

// The line at which a plan is not taken.
#[derive(Clone, Copy, PartialEq, Eq, Debug)]
pub struct NotTaken {
    pub line: usize,
}

// The answer at the end frame: nothing may stand after it.
fn ended(n: usize, rest: usize) -> Result<usize, NotTaken>
    requires { n ≤ 64 }
    ensures { result ≡ ended_as n rest }
{
    if rest == 0 {
        Ok(n)
    } else {
        Err(NotTaken { line: n + 2 })
    }
}

// Checks a plan and puts its frames into the first rows, the frames before a line that is not allowed too: how many, or that line.
#[tactic(auto, using(crate::proofs::Rounds::left_first, crate::proofs::Rounds::left_none, crate::proofs::Rounds::left_not, crate::proofs::Rounds::left_end, crate::proofs::Rounds::left_room, crate::proofs::Rounds::left_on, lines::proofs::Ends::end_least, lines::proofs::Ends::end_past))]
pub fn load(plan: &[u8], rows: &mut Rows) -> Result<usize, NotTaken>
    ensures answer { result ≡ loaded_as (load_of plan.now) }
    ensures rows { rows.new ≡ sets rows.old 0 (map row_of (read_frames plan.now)) }
{
    let mut n: usize = 0;
    let mut at: usize = 0;
    let mut before = Before::Start;
    // From line to line: an iterator over lines would keep the place too, which `line_end` answers.
    while at < plan.len() {
        let end = lines::line_end(plan, at);
        if plan.len() <= end {
            return Err(NotTaken { line: n + 1 });
        }
        let allowed = line::allow(n, before, &plan[at..end]);
        let (frame, after) = allowed.ok_or(NotTaken { line: n + 1 })?;
        at = end + 1;
        if line::is_end(frame) {
            return ended(n, plan.len() - at);
        }
        rows[n] = text::row_of(frame);
        n += 1;
        before = after;
    }
    Err(NotTaken { line: n + 1 })
}

// The same, of a plan whose frames are not asked for.
pub fn check(plan: &[u8]) -> Result<usize, NotTaken>
    ensures { result ≡ loaded_as (load_of plan.now) }
{
    let mut rows = fresh_rows();
    load(plan, &mut rows)
}
