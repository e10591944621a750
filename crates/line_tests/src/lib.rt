//! What readers of lines and bundles answer on examples, and how lines are printed.
#![tactic(auto)]

#[cfg(test)]
mod tests;
