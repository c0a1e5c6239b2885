// Create entries.
#![tactic(auto)]

pub mod create;
