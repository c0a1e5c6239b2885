// No code: what a move would gain, and that EXDEV is never needless.
#![tactic(auto)]
