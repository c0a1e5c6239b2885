// No code: what applying a ruleset of a policy file promises, and the laws of it.
#![tactic(auto)]
