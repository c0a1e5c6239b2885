// What sound entries are: definitions and laws. The test is in sound_entries and the crates below it.
#![tactic(auto)]
