// The local minutes that frames hold: the least and the last of a range, of one frame and of several less the excepted ones. Upwards a minute is answered, downwards one more than a minute: the two ways are no twins.
#![tactic(auto)]

pub mod lists;
pub mod minutes;
mod one;
mod times;
