// The starred cases of document 01: definitions and one theorem, no code.
#![tactic(auto)]
