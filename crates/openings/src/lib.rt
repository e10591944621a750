//! Whether a check can be opened on what a shelf holds.
#![tactic(auto)]

mod earlier;
mod fact;
mod filter;
pub mod unfit;
