//! The two kinds of check, as types.
ghost use Rattle.std.specs.Prelude.{◌≡◌, ◌≢◌, ℕ, Result, MatchOption};
ghost use Rattle.calls.specs.declared.answer.Check.{Check};
ghost use Rattle.calls.specs.declared.answer.Check.TheVariants as of;
ghost use Rattle.calls.specs.declared.event.Event.{Event};
ghost use Rattle.calls.specs.declared.event.Event.TheVariants.{OpenDerivation, OpenModel, StrikeDerivation, StrikeModel};
ghost use Rattle.checker.specs.Shapes.{query_of};
ghost use Rattle.protocol.specs.Calls.{Opened, Struck};
ghost use Rattle.protocol.specs.Runs.{Did};
ghost use Rattle.protocol.specs.States.{State};
ghost use Rattle.refusals.specs.declared.refusal.Refusal.{Refusal};

use calls::answer::Check;

/// A kind of check.
pub trait Kind {
    ghost check_of: { ℕ → Check };

    ghost open_event: { ℕ → Result (Unit {0}) Refusal → Event };

    ghost strike_event: { ℕ → Result (Unit {0}) Refusal → Event };

    /// The check of the query.
    fn check(query: usize) -> Check
        ensures kind { result ≡ check_of query }
        ensures query { query_of result ≡ query };

    /// The query of the check, if it is of this kind.
    fn query(check: Check) -> Option<usize>
        ensures { MatchOption result ((q : ℕ) → check ≢ check_of q) (λ q. (check ≡ check_of q) × (query_of check ≡ q)) };

    ghost opens: { (s t : State) (q : ℕ) (r : Result (Unit {0}) Refusal) → Opened check_of s q r t → Did s (open_event q r) t };

    ghost strikes: { (s t : State) (n : ℕ) (r : Result (Unit {0}) Refusal) → Struck check_of s n r t → Did s (strike_event n r) t };
}

/// Derivations.
pub struct Derivation;

/// Models.
pub struct Model;

impl Kind for Derivation {
    ghost check_of = { of.Derivation };

    ghost open_event = { OpenDerivation };

    ghost strike_event = { StrikeDerivation };

    fn check(query: usize) -> Check {
        Check::Derivation(query)
    }

    fn query(check: Check) -> Option<usize> {
        match check {
            Check::Derivation(asked) => Some(asked),
            Check::Model(_) => None,
        }
    }

    ghost opens = { λ s t q r h. h };

    ghost strikes = { λ s t n r h. h };
}

impl Kind for Model {
    ghost check_of = { of.Model };

    ghost open_event = { OpenModel };

    ghost strike_event = { StrikeModel };

    fn check(query: usize) -> Check {
        Check::Model(query)
    }

    fn query(check: Check) -> Option<usize> {
        match check {
            Check::Model(asked) => Some(asked),
            Check::Derivation(_) => None,
        }
    }

    ghost opens = { λ s t q r h. h };

    ghost strikes = { λ s t n r h. h };
}
