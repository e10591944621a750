//! Tests of fitting and of finding matches, and what they share.
#![tactic(auto)]

#[cfg(test)]
mod finds;
#[cfg(test)]
mod fits;
mod made;
