//! The printed line of each answer.
#![tactic(auto)]

pub mod line;
