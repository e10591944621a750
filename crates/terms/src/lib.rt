//! Constants, nulls and variables, and the terms that are made of them.
#![tactic(auto)]

pub mod constant;
mod exactness;
pub mod null;
pub mod pattern_term;
pub mod predicate;
mod shown;
pub mod slot;
pub mod term;
pub mod variable;
