//! What patterns, matches, rules, models and guards are. The definitions stand in `specs`, their laws in `proofs`; no code.
#![tactic(auto)]
