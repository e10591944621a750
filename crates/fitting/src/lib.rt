//! Bindings, and how one pattern fits one atom under them.
#![tactic(auto)]

pub mod binding;
pub mod fit;
pub mod instance;
pub mod trial;
