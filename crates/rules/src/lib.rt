//! Rules, each with its guard.
#![tactic(auto)]

pub mod rule;
