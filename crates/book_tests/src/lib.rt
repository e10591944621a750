//! What drafts and books answer on examples.
#![tactic(auto)]

#[cfg(test)]
mod tests;
