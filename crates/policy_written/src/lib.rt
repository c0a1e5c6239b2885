// No code: what a written policy file is when it is read and applied, and the laws of it.
#![tactic(auto)]
