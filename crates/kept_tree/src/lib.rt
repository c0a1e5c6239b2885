// No code: theorems that the calls that change the tree keep sound tables sound.
#![tactic(auto)]
