//! Atoms as a caller writes them, and how their terms are read.
#![tactic(auto)]

pub mod raw;
pub mod sort;
