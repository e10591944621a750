//! Opening a check, and giving it up.
ghost use Rattle.checker.specs.Parts.{OpenJudged};
ghost use Rattle.checker.specs.Views.{Left, bare, view};
ghost use Rattle.protocol.specs.Runs.{Did};
ghost use Rattle.std.specs.Prelude.{◌≡◌, IfOk};

use crate::checker::Checker;
use crate::kind::Kind;
use crate::slip::Slip;
use openings::unfit::first_unfit;
use refusals::refusal::Refusal;
use shelves::stock::Shelf;

impl<S: Shelf> Checker<S> {
    /// Refuses where no check of the query may be opened.
    fn judge_open(&self, query: usize) -> Result<(), Refusal>
        ensures { OpenJudged (view S.Stock.list S.Shelf.free self.now) query result }
    {
        if self.check.is_some() {
            return Err(Refusal::AlreadyOpen);
        }
        self.book
            .query(query)
            .ok_or(Refusal::NoSuchNumber { number: query })?;
        match first_unfit(self.pile.below(), &self.book) {
            Some(place) => Err(Refusal::UnfitShelf { place }),
            None => Ok(()),
        }
    }

    /// Opens a check of the query, of the kind that the slip is for.
    pub fn open<K: Kind>(&mut self, query: usize) -> Result<Slip<K>, Refusal>
        ensures did { Did (view S.Stock.list S.Shelf.free self.old) (K.open_event query (bare result)) (view S.Stock.list S.Shelf.free self.new) }
        ensures left { Left self.old result self.new }
        ensures slip { IfOk result (λ slip. slip ≡ self.old.number) }
    {
        self.judge_open(query)?;
        self.restart(Some(K::check(query)));
        Ok(Slip::new(self.number))
    }

    /// Gives the check up. The slip is spent, also where it is foreign.
    pub fn strike<K: Kind>(&mut self, slip: Slip<K>) -> Result<(), Refusal>
        ensures did { Did (view S.Stock.list S.Shelf.free self.old) (K.strike_event slip result) (view S.Stock.list S.Shelf.free self.new) }
        ensures left { Left self.old result self.new }
    {
        let owned = self.own(&slip);
        slip.spend();
        owned?;
        self.restart(None);
        Ok(())
    }
}
