//! What a checker is asked and what it answers.
#![tactic(auto)]

pub mod answer;
pub mod call;
pub mod candidate;
pub mod event;
pub mod places;
