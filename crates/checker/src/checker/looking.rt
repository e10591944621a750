//! Questions to a checker, and its end.
ghost use Rattle.checker.specs.Views.{Ended};
ghost use Rattle.overlays.specs.Stacked.{stacked};
ghost use Rattle.std.specs.List.{slice_get};
ghost use Rattle.std.specs.Prelude.{◌≡◌, length};

use crate::checker::Checker;
use atoms::atom::GroundAtom;
use book::book::Book;
use calls::answer::Check;
use shelves::stock::{Shelf, Stock};

impl<S: Shelf> Checker<S> {
    /// How many atoms the pile has: those of the shelf, then those that the open check added.
    pub fn size(&self) -> usize
        ensures { result ≡ length (stacked S.Stock.list self.now.pile) }
    {
        self.pile.len()
    }

    /// The atom at that place of the pile, if there is one.
    pub fn atom_at(&self, place: usize) -> Option<GroundAtom>
        ensures { result ≡ slice_get (stacked S.Stock.list self.now.pile) place }
    {
        self.pile.get(place)
    }

    /// Which check is open, if one is.
    pub fn check(&self) -> Option<Check>
        ensures { result ≡ self.now.check }
    {
        self.check
    }

    /// Gives the book and the shelf back, while no check is open.
    pub fn end(self) -> Result<(Book, S), Checker<S>>
        ensures { Ended self result }
    {
        if self.check.is_some() {
            return Err(self);
        }
        let Checker {
            book,
            pile,
            number: _,
            check: _,
            nulls: _,
        } = self;
        Ok((book, pile.release()))
    }
}
