//! How several patterns fit atoms of a stock.
#![tactic(auto)]

pub mod find;
pub mod places;
