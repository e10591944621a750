//! Code over any shelf, shown at a pile of overlays.
#![tactic(auto)]

pub mod uses;
