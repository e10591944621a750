//! What each call of a checker does, and the law over runs of them: definitions and proofs, no code.
#![tactic(auto)]
