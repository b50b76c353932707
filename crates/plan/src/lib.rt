// A plan: frames as numbers.
#![tactic(auto)]

use frames::{Cron, Rule};
use zone::Transition;

mod puts;
pub mod text;

// One line of a plan. Offsets, instants and local minutes are those of the inside.
#[derive(Clone, Copy)]
pub enum Frame {
    Offset(u64),
    Change(Transition),
    Cron(Cron),
    Rule(Rule),
    Extra(u64),
    Excepted(u64),
    End(u64),
}
