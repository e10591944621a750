//! Claims on a constraint.
ghost use Rattle.calls.specs.declared.event.Event.TheVariants.{Clash};
ghost use Rattle.checker.specs.Parts.{ClashJudged};
ghost use Rattle.checker.specs.Views.{Left, plain, Handed, TrueAfter, view};
ghost use Rattle.protocol.specs.Runs.{Did};

use crate::checker::Checker;
use crate::slip::{DerivationSlip, Returned};
use calls::answer::Verdict;
use calls::candidate::Candidate;
use calls::places::Places;
use refusals::refusal::Refusal;
use shelves::stock::Shelf;

impl<S: Shelf> Checker<S> {
    /// The verdict, if the places show the constraint.
    fn judge_clash(
        &self,
        slip: &DerivationSlip,
        constraint: usize,
        places: Places,
    ) -> Result<Verdict, Refusal>
        ensures { ClashJudged (view S.Stock.list S.Shelf.free self.now) slip.now constraint places result }
    {
        self.own(slip)?;
        let patterns = self
            .constraint_of(constraint)
            .ok_or(Refusal::NoSuchNumber { number: constraint })?;
        self.show(patterns, places)?;
        Ok(Verdict::Inconsistent {
            constraint,
            added: self.pile.own_len(),
            nulls: self.nulls,
        })
    }

    /// Claims that the constraint has a match at these places, one for each of its patterns.
    pub fn clash<W: Candidate>(
        &mut self,
        slip: DerivationSlip,
        constraint: usize,
        places: Places,
    ) -> Result<Verdict, Returned<DerivationSlip>>
        ensures did { Did (view S.Stock.list S.Shelf.free self.old) (Clash slip constraint places (plain result)) (view S.Stock.list S.Shelf.free self.new) }
        ensures left { Left self.old result self.new }
        ensures back { Handed slip result }
        ensures truth { TrueAfter W.Candidate.has (view S.Stock.list S.Shelf.free self.old) (plain result) }
    {
        let judged = self.judge_clash(&slip, constraint, places);
        self.close(slip, judged)
    }
}
