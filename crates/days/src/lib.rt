// The local days that one cron or rule frame holds: the least and the last of a range. Upwards a day is answered, downwards one more than a day: the two ways are no twins.
#![tactic(auto)]

mod back;
mod counted;
mod parts;
pub mod ranges;
mod steps;
mod walk;
