//! What the seven calls on a sheet answer and leave, by definition, and the promise about them.
#![tactic(auto)]

pub mod outcome;
