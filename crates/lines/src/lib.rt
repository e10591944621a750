//! The atoms of a line.
#![tactic(auto)]

pub mod atom;
mod part;
pub mod sentence;
