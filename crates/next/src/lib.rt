// Next and previous of a plan, and the instant of a local minute and the offset at an instant by its zone.
#![tactic(auto)]

ghost use Rattle.std.specs.Prelude.{◌≡◌};
ghost use Rattle.plan.specs.Taken.{load as load_of};
ghost use Rattle.next.specs.Plans.{AnswerBy, FoundIn, NextIn, PreviousIn, local_in, offset_in};

use frames::places::fresh_rows;
use instants::Opened;
use load::NotTaken;
use load::offsets::zone_of;
use zone::stretch;

mod instants;
mod stretches;

// Opens a plan and asks its frames and its zone.
fn in_plan<T, F: FnOnce(&Opened) -> T>(plan: &[u8], ask: F) -> Result<T, NotTaken>
    requires { F.IsAlwaysCallable ask }
    ensures { AnswerBy (FoundIn (F.post ask)) (load_of plan.now) result }
{
    let mut rows = fresh_rows();
    let count = load::load(plan, &mut rows)?;
    let frames = &rows[..count];
    let zone = zone_of(&rows, count);
    let opened = Opened {
        frames,
        zone: &zone,
    };
    Ok(ask(&opened))
}

// The first instant of the plan that is later than `asked`.
pub fn next(plan: &[u8], asked: u64) -> Result<Option<u64>, NotTaken>
    ensures { NextIn plan.now asked result }
{
    in_plan(plan, |opened| opened.next(asked))
}

// The last instant of the plan that is earlier than `asked`.
pub fn previous(plan: &[u8], asked: u64) -> Result<Option<u64>, NotTaken>
    ensures { PreviousIn plan.now asked result }
{
    in_plan(plan, |opened| opened.previous(asked))
}

// The instant of a local minute of the window by the plan's zone.
pub fn instant_of_local(plan: &[u8], m: u64) -> Result<Option<u64>, NotTaken>
    ensures { result ≡ local_in plan.now m }
{
    in_plan(plan, |opened| stretch::instant_of_local(opened.zone, m))
}

// The offset at an instant by the plan's zone.
pub fn offset_at(plan: &[u8], asked: u64) -> Result<u64, NotTaken>
    ensures { result ≡ offset_in plan.now asked }
{
    in_plan(plan, |opened| zone::offset_at(opened.zone, asked))
}
