// No code: demand 3 with replays of logs among the calls.
#![tactic(auto)]
