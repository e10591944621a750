//! The words of a line.
#![tactic(auto)]

pub mod error;
pub mod reader;
pub mod word;
