//! A rule that is none of the machine's, and a sheet driven over it: any rule will do.
#![tactic(auto)]

pub mod alone;
pub mod flat;
#[cfg(test)]
mod tests;
