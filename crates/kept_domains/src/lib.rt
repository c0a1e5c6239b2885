// No code: theorems that the calls on threads and layers keep sound tables sound.
#![tactic(auto)]
