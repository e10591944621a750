//! Overlays: shelves on shelves.
#![tactic(auto)]

pub mod overlay;
