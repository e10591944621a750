//! The frame of a bundle.
#![tactic(auto)]

mod contents;
pub mod frame;
mod split;
