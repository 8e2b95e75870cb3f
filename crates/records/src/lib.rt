//! The records of the two files, as they lie there, and the questions put to each.
#![tactic(auto)]

pub mod bytes;
pub mod fault;
mod item;
mod print;
pub mod record;
pub mod rows;
mod station;
