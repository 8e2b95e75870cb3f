//! The two files: rows of records taken in one after the other, and what they make.
#![tactic(auto)]

pub mod cell;
pub mod faulty;
pub mod names;
pub mod process;
mod rows;
#[cfg(test)]
mod tests;
