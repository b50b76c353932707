// Pieces of a sheet line, read at a cursor: numbers, signs, times, offsets and words.
#![tactic(auto)]

pub mod cursor;
mod digits;
pub mod times;
