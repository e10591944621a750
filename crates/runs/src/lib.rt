//! Runs of calls over a pool of slips, and the law over all that a checker has met.
#![tactic(auto)]

pub mod conduct;
mod perform;
pub mod pool;
mod under;
pub mod vouch;
