//! Tests of the checker on the personnel catalogue.
#![tactic(auto)]

#[cfg(test)]
mod tests;
