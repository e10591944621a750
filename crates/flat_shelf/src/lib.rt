//! The flat shelf.
#![tactic(auto)]

pub mod flat;
