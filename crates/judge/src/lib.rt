// How a layer judges a path or a port: its rules, and the climb from an entry to the root.
#![tactic(auto)]

pub mod climb;
pub mod rules;
