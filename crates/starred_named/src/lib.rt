// The starred cases of document 01 on tables with names: definitions and one theorem, no code.
#![tactic(auto)]
