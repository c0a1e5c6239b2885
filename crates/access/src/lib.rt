// The words of the field: right sets, kinds of entries, error numbers and limits.
#![tactic(auto)]

pub mod errno;
pub mod kinds;
pub mod limits;
pub mod rights;
