//! Rows of one to four of a kind.
#![tactic(auto)]

pub mod first_four;
pub mod row;
