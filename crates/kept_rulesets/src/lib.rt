// No code: theorems that the calls on rulesets keep sound tables sound.
#![tactic(auto)]
