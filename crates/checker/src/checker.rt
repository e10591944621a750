//! The checker.
ghost use Rattle.book.specs.Tables.{entries};
ghost use Rattle.checker.specs.Shapes.{query_known, own_known};
ghost use Rattle.std.specs.Prelude.{◌≡◌, ◌*◌, ◌≤◌, true, length};

use book::book::Book;
use calls::answer::Check;
use overlays::overlay::Overlay;

mod claiming;
mod clashing;
mod counter;
mod derivation;
mod lodging;
mod looking;
mod making;
mod opening;
mod parts;
mod showing;

/// Checks certificates against a book and the facts on a shelf, with an overlay of its own on that shelf.
#[derive(Drop)]
pub struct Checker<S> {
    book: Book,
    pile: Overlay<S>,
    number: u16,
    check: Option<Check>,
    nulls: u32,
    ghost asked: { query_known (length (entries book.queries)) check ≡ true },
    ghost idle: { own_known (length pile.own.items) check ≡ true },
    ghost few: { nulls ≤ 4 * length pile.own.items },
}
