//! What the tests of the checker share: whole checks, answers that can be compared, and a shelf with any atoms.
#![tactic(auto)]

pub mod fixed;
pub mod raw;
pub mod runs;
pub mod said;
pub mod small;
