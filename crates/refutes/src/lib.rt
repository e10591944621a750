//! Whether a pile refutes a query.
#![tactic(auto)]

pub mod refute;
mod satisfied;
