// The needs of link, rename and exchange, and the verdict on them.
#![tactic(auto)]

pub mod needs;
pub mod table;
pub mod verdict;
