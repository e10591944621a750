//! Steps of a derivation.
ghost use Rattle.calls.specs.declared.event.Event.TheVariants.{Step};
ghost use Rattle.checker.specs.Parts.{StepJudged};
ghost use Rattle.checker.specs.Views.{Left, view};
ghost use Rattle.protocol.specs.Runs.{Did};

use crate::checker::Checker;
use crate::slip::DerivationSlip;
use refusals::refusal::Refusal;
use shelves::stock::Shelf;
use shelves::taken::Taken;
use steps::step::{Head, judge_step};

impl<S: Shelf> Checker<S> {
    /// The head that the rule gives at the place, if the step may be made under the slip.
    fn judge_use(&self, slip: &DerivationSlip, rule: usize, place: usize) -> Result<Head, Refusal>
        ensures { StepJudged (view S.Stock.list S.Shelf.free self.now) slip.now rule place result }
    {
        self.own(slip)?;
        let found = self
            .book
            .rule(rule)
            .ok_or(Refusal::NoSuchNumber { number: rule })?;
        judge_step(&self.pile, found, place, self.nulls)
    }

    /// Uses a rule at a place: its head goes into the overlay.
    pub fn step(
        &mut self,
        slip: &DerivationSlip,
        rule: usize,
        place: usize,
    ) -> Result<Taken, Refusal>
        ensures did { Did (view S.Stock.list S.Shelf.free self.old) (Step slip.now rule place result) (view S.Stock.list S.Shelf.free self.new) }
        ensures left { Left self.old result self.new }
    {
        let head = self.judge_use(slip, rule, place)?;
        self.put_atom(head.atom, head.nulls)
            .or(Err(Refusal::OverlayFull))
    }
}
