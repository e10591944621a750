//! Equality that tells any two values apart.
#![tactic(auto)]

pub mod equality;
