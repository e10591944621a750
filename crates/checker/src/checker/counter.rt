//! Models: add and refute.
ghost use Rattle.calls.specs.declared.event.Event.TheVariants.{Add, Refute};
ghost use Rattle.checker.specs.Parts.{AddJudged, RefuteJudged};
ghost use Rattle.checker.specs.Views.{Left, plain, Handed, TrueNow, view};
ghost use Rattle.protocol.specs.Runs.{Did};
ghost use Rattle.semantics.specs.Subject.{Atom};
ghost use Rattle.std.specs.Prelude.{◌≡◌, List, ◌++◌, OnOk};

use crate::checker::Checker;
use crate::slip::{ModelSlip, Returned};
use atoms::atom::GroundAtom;
use calls::answer::Verdict;
use calls::candidate::Candidate;
use reading::raw::RawAtom;
use refusals::refusal::Refusal;
use refutes::refute::judge_refute;
use shelves::stock::Shelf;
use shelves::taken::Taken;

impl<S: Shelf> Checker<S> {
    /// The ground atom that is written, if it may be added under the slip.
    fn judge_add(&self, slip: &ModelSlip, atom: &RawAtom) -> Result<GroundAtom, Refusal>
        ensures { AddJudged (view S.Stock.list S.Shelf.free self.now) slip.now atom.now result }
    {
        self.own(slip)?;
        self.read_atom(atom)
    }

    /// Puts a ground atom, which may have nulls, into the overlay.
    pub fn add(&mut self, slip: &ModelSlip, atom: &RawAtom) -> Result<Taken, Refusal>
        ensures did { Did (view S.Stock.list S.Shelf.free self.old) (Add slip.now atom.now result) (view S.Stock.list S.Shelf.free self.new) }
        ensures left { Left self.old result self.new }
    {
        let ground = self.judge_add(slip, atom)?;
        self.put_atom(ground, self.nulls)
            .or(Err(Refusal::OverlayFull))
    }

    /// The verdict, if the pile refutes the query of the open model.
    fn judge_pile(&self, slip: &ModelSlip) -> Result<Verdict, Refusal>
        ensures judged { RefuteJudged (view S.Stock.list S.Shelf.free self.now) slip.now result }
        ensures begins { OnOk result ((own : List Atom) × ((view S.Stock.list S.Shelf.free self.now).pile ≡ (view S.Stock.list S.Shelf.free self.now).facts ++ own)) }
    {
        let query = self.own(slip)?;
        let size = judge_refute(&self.pile, &self.book, query, self.patterns_of(query))?;
        Ok(Verdict::NotEntailed { query, size })
    }

    /// Shows that the query has no match in the pile, which is a model that obeys every constraint.
    pub fn refute<W: Candidate>(&mut self, slip: ModelSlip) -> Result<Verdict, Returned<ModelSlip>>
        ensures did { Did (view S.Stock.list S.Shelf.free self.old) (Refute slip (plain result)) (view S.Stock.list S.Shelf.free self.new) }
        ensures left { Left self.old result self.new }
        ensures back { Handed slip result }
        ensures truth { TrueNow W.Candidate.has (view S.Stock.list S.Shelf.free self.old) (plain result) }
    {
        let judged = self.judge_pile(&slip);
        self.close(slip, judged)
    }
}
