// No code: the policy file of a ruleset, and the laws of it.
#![tactic(auto)]
