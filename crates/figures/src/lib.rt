//! The worked figures: one theorem about the rules, the bank and the run, and the machine that it
//! speaks of.
#![tactic(auto)]

pub mod machine;
pub mod six;
#[cfg(test)]
mod tests;
