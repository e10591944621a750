//! The draft, and the sealed book of declarations, rules, constraints and queries.
#![tactic(auto)]

pub mod book;
pub mod draft;
pub mod table;
