//! The rules of the machine: table, processor, CAN and gateway, and the bank of them all.
#![tactic(auto)]

pub mod all;
pub mod can;
pub mod gateway;
mod interference;
pub mod processor;
pub mod stations;
pub mod table;
#[cfg(test)]
mod tests;
