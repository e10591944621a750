//! How many terms a predicate takes.
pub use terms::predicate::Arity;
