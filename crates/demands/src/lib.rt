// Laws alone: demand 3, and that every compiled plan is taken.
#![tactic(auto)]
