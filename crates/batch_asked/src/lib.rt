// No code: what the checks before a verdict tell a batch.
#![tactic(auto)]
