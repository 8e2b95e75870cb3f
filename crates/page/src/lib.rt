//! What two files come to, and how it is printed.
#![tactic(auto)]

pub mod page;
pub mod print;
