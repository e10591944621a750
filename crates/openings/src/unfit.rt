//! The first atom of a stock that is no fact of the book, or equals an earlier one.
ghost use Rattle.book.specs.Theory.{predicates_of};
ghost use Rattle.matching.specs.Searches.{pile};
ghost use Rattle.openings.specs.Filters.{Marked};
ghost use Rattle.chase.specs.Unfit.{UnfitAt, FirstUnfit};
ghost use Rattle.std.specs.List.{slice_get};
ghost use Rattle.std.specs.Prelude.{◌≡◌, length, Some as is, Decides};

use crate::earlier::earlier;
use crate::fact::is_fact;
use crate::filter::{SLOTS, is_marked, mark};
use atoms::atom::GroundAtom;
use book::book::Book;
use shelves::stock::Stock;

/// Whether the atom, which stands at the place, is unfit there. It looks back only where the filter has a mark.
fn is_unfit<S: Stock>(
    stock: &S,
    book: &Book,
    seen: &[bool],
    place: usize,
    atom: &GroundAtom,
) -> bool
    requires slots { length seen.now ≡ 65521 }
    requires marked { Marked seen.now (pile (S.Stock.list stock.now)) place }
    requires there { slice_get (S.Stock.list stock.now) place ≡ is atom.now }
    ensures { Decides result (UnfitAt (predicates_of book.now) (pile (S.Stock.list stock.now)) place) }
{
    if !is_fact(atom, book) {
        return true;
    }
    is_marked(seen, atom) && earlier(stock, place, atom)
}

/// The same as `first_unfit`, with a filter to write on. What it held before does not matter.
fn first_with<S: Stock>(stock: &S, book: &Book, seen: &mut [bool]) -> Option<usize>
    requires { length seen.old ≡ 65521 }
    ensures { FirstUnfit (predicates_of book.now) (pile (S.Stock.list stock.now)) result }
{
    // A closure that marks while it looks would leave the proof without what it marked.
    for place in 0..stock.len() {
        if let Some(atom) = stock.get(place) {
            if is_unfit(stock, book, seen, place, &atom) {
                return Some(place);
            }
            mark(seen, &atom);
        }
    }
    None
}

/// The lowest place whose atom is no fact of the book or equals an earlier one, if there is one.
pub fn first_unfit<S: Stock>(stock: &S, book: &Book) -> Option<usize>
    ensures { FirstUnfit (predicates_of book.now) (pile (S.Stock.list stock.now)) result }
{
    let mut seen = [false; SLOTS];
    first_with(stock, book, &mut seen)
}
