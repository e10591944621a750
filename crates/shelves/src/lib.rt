//! Stocks and shelves of ground atoms.
#![tactic(auto)]

pub mod lent;
pub mod record;
pub mod rows;
pub mod stock;
pub mod taken;
