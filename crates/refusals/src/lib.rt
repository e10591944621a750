//! Why a call was refused.
#![tactic(auto)]

pub mod refusal;
