//! Tests of the checker's calls.
#![tactic(auto)]

#[cfg(test)]
mod tests;
