// Sheet lines.
#![tactic(auto)]
