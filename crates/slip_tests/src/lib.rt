//! Tests of slips, of shelves below a checker, and of its end.
#![tactic(auto)]

#[cfg(test)]
mod tests;
