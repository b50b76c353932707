// The frame of a sheet line.
#![tactic(auto)]
