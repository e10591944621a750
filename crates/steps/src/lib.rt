//! The parts of a chase step: side atoms, fresh nulls, and the step judged.
#![tactic(auto)]

mod head;
pub mod side;
pub mod step;
