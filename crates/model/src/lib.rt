//! What every other crate speaks of: items, arcs, sets of times, and what a rule means.
#![tactic(auto)]

pub mod arc;
pub mod asked;
pub mod item;
pub mod queue;
pub mod rule;
pub mod times;
