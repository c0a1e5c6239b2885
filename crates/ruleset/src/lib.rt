// A ruleset's attribute, and the tests that precede its making, in order.
#![tactic(auto)]

pub mod attribute;
pub mod create;
