// No code: what the code of tree calls with a log comes to, case by case.
#![tactic(auto)]
