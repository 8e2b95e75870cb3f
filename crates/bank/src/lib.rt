//! Banks: a rule made of a class rule in front and any rule behind, and how any rule is driven.
#![tactic(auto)]

pub mod bank;
pub mod drive;
