// No code: the calls on tables with names, and what holds of all of them.
#![tactic(auto)]
