// A thread cloned: the tests, in order, and the change. What the other calls on threads and layers do is defined here too.
#![tactic(auto)]

pub mod threads;
