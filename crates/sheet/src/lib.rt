//! The sheet: seven calls over any rule, with the whole promise.
#![tactic(auto)]

mod admit;
mod answers;
mod ask;
mod run;
pub mod sheet;
mod step;
pub mod table;
