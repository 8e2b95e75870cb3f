//! The tool as one call that fills a plain table.
#![tactic(auto)]

pub mod linked;
