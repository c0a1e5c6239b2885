// The entry points of the calls that change the tree: each tests the tables first and answers EIO if they are not sound, then
// does the call. A refusal changes no cell.
#![tactic(auto)]

pub mod create;
pub mod remove;
