// Cron fields: an element, a list of elements, the five fields, and the frame of all five.
#![tactic(auto)]

pub mod element;
pub mod field;
pub mod five;
mod list;
mod marks;
