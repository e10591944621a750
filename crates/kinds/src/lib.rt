//! The kinds of lines.
#![tactic(auto)]

pub mod line;
mod parts;
pub mod request;
