// The marked cases: nothing to run.
#![tactic(auto)]
