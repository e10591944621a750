//! The law over all that a checker has met, where its calls were made one by one.
ghost use Rattle.checker.specs.Views.{view};
ghost use Rattle.runs.specs.Vouched.{Vouched};

use calls::candidate::Candidate;
use checker::checker::Checker;
use shelves::stock::Shelf;

/// Vouches for every history that the checker has met. Making a checker gives the empty history, and each call's own
/// clause extends it.
pub fn vouch<W: Candidate, S: Shelf>(checker: &Checker<S>)
    ensures { Vouched W.Candidate.has (view S.Stock.list S.Shelf.free checker.now) }
{}
