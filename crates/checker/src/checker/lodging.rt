//! Lodging facts and reading atoms.
ghost use Rattle.calls.specs.declared.event.Event.TheVariants.{Lodge};
ghost use Rattle.checker.specs.Parts.{ReadsFact, ReadsAtom, LodgeJudged};
ghost use Rattle.checker.specs.Views.{LodgeLeft, view};
ghost use Rattle.protocol.specs.Runs.{Did};

use crate::checker::Checker;
use atoms::atom::{Fact, GroundAtom};
use reading::raw::RawAtom;
use refusals::refusal::Refusal;
use shelves::stock::Shelf;
use shelves::taken::Taken;

impl<S: Shelf> Checker<S> {
    /// The fact that is written, as a ground atom.
    fn read_fact(&self, fact: &RawAtom) -> Result<GroundAtom, Refusal>
        ensures { ReadsFact (view S.Stock.list S.Shelf.free self.now) fact.now result }
    {
        let fact: Fact = self.book.check(0, fact)?;
        Ok(fact.ground())
    }

    /// The ground atom that is written.
    pub(crate) fn read_atom(&self, atom: &RawAtom) -> Result<GroundAtom, Refusal>
        ensures { ReadsAtom (view S.Stock.list S.Shelf.free self.now) atom.now result }
    {
        self.book.check(0, atom)
    }

    /// The fact that is written, if it may be lodged now.
    fn judge_lodge(&self, fact: &RawAtom) -> Result<GroundAtom, Refusal>
        ensures { LodgeJudged (view S.Stock.list S.Shelf.free self.now) fact.now result }
    {
        if self.check.is_some() {
            return Err(Refusal::CheckOpen);
        }
        self.read_fact(fact)
    }

    /// Puts a fact on the shelf, while no check is open.
    pub fn lodge(&mut self, fact: &RawAtom) -> Result<Taken, Refusal>
        ensures did { Did (view S.Stock.list S.Shelf.free self.old) (Lodge fact.now result) (view S.Stock.list S.Shelf.free self.new) }
        ensures left { LodgeLeft self.old result self.new }
    {
        let atom = self.judge_lodge(fact)?;
        self.put_fact(atom).or(Err(Refusal::ShelfFull))
    }
}
