// The tables: the sizes of their rows, and total readers of their cells by name.
#![tactic(auto)]

pub mod rows;
