// No code: the log of tree changes, its replay, and what an unbroken log gives back.
#![tactic(auto)]
