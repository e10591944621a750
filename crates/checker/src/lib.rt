//! The checker: slips, calls and verdicts.
#![tactic(auto)]

pub mod checker;
pub mod kind;
pub mod slip;
