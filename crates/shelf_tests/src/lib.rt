//! Tests of the shelves, and what they share.
#![tactic(auto)]

#[cfg(test)]
mod flat;
#[cfg(test)]
mod made;
#[cfg(test)]
mod overlay;
