// What the calls that change the tree share: tests of entries and changes of rows.
#![tactic(auto)]

pub mod entries;

// The entry that a rename replaces, if it replaces one.
#[derive(Clone, Copy)]
pub enum Replaced {
    None,
    Entry(u64),
}
