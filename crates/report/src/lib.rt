//! From two files to the page.
#![tactic(auto)]

pub mod tell;
