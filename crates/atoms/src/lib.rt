//! Atoms: a predicate with one to four terms.
#![tactic(auto)]

pub mod atom;
mod exactness;
pub mod fact;
mod shown;
pub mod variables;
