//! Claims on the query.
ghost use Rattle.calls.specs.declared.event.Event.TheVariants.{Claim};
ghost use Rattle.checker.specs.Parts.{ClaimJudged};
ghost use Rattle.checker.specs.Views.{Left, plain, Handed, TrueAfter, view};
ghost use Rattle.protocol.specs.Runs.{Did};

use crate::checker::Checker;
use crate::slip::{DerivationSlip, Returned};
use calls::answer::Verdict;
use calls::candidate::Candidate;
use calls::places::Places;
use refusals::refusal::Refusal;
use shelves::stock::Shelf;

impl<S: Shelf> Checker<S> {
    /// The verdict, if the places show the query of the open derivation.
    fn judge_claim(&self, slip: &DerivationSlip, places: Places) -> Result<Verdict, Refusal>
        ensures { ClaimJudged (view S.Stock.list S.Shelf.free self.now) slip.now places result }
    {
        let query = self.own(slip)?;
        self.show(self.patterns_of(query), places)?;
        Ok(Verdict::Entailed {
            query,
            added: self.pile.own_len(),
            nulls: self.nulls,
        })
    }

    /// Claims that the query has a match at these places, one for each of its patterns.
    pub fn claim<W: Candidate>(
        &mut self,
        slip: DerivationSlip,
        places: Places,
    ) -> Result<Verdict, Returned<DerivationSlip>>
        ensures did { Did (view S.Stock.list S.Shelf.free self.old) (Claim slip places (plain result)) (view S.Stock.list S.Shelf.free self.new) }
        ensures left { Left self.old result self.new }
        ensures back { Handed slip result }
        ensures truth { TrueAfter W.Candidate.has (view S.Stock.list S.Shelf.free self.old) (plain result) }
    {
        let judged = self.judge_claim(&slip, places);
        self.close(slip, judged)
    }
}
