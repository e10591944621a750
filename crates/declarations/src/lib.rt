//! Declared predicates, and the check of atoms and patterns as a caller writes them.
#![tactic(auto)]

pub mod arity;
pub mod check;
pub mod declarations;
pub mod patterns;
