//! The chase: what a derivation may add, and what a counter-model has to satisfy. Definitions and their laws; no code.
#![tactic(auto)]
