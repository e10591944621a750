//! Making a checker.
ghost use Rattle.checker.specs.Views.{view};
ghost use Rattle.matching.specs.Searches.{pile};
ghost use Rattle.protocol.specs.Runs.{Met};
ghost use Rattle.protocol.specs.States.{State};
ghost use Rattle.std.specs.Prelude.{◌≡◌, []};

use crate::checker::Checker;
use book::book::Book;
use overlays::overlay::Overlay;
use shelves::stock::Shelf;

impl<S: Shelf> Checker<S> {
    /// A checker of the book on the shelf, with the number that its owner chose. No check is open.
    pub fn new(book: Book, shelf: S, number: u16) -> Checker<S>
        ensures state { view S.Stock.list S.Shelf.free result ≡ record { book = book; number = number; facts = pile (S.Stock.list shelf); free = S.Shelf.free shelf; pile = pile (S.Stock.list shelf); added = 0; nulls = 0; check = None } }
        ensures shelf { result.pile.below ≡ shelf }
        ensures met { Met book number (pile (S.Stock.list shelf)) [] (view S.Stock.list S.Shelf.free result) }
    {
        Checker {
            book,
            pile: Overlay::new(shelf),
            number,
            check: None,
            nulls: 0,
        }
    }
}
