// The lists of a rule: the entries of BYDAY, and the numbers of BYMONTHDAY, BYSETPOS and BYMONTH, as masks.
#![tactic(auto)]

mod entry;
pub mod list;
pub mod numbers;
pub mod weekdays;
