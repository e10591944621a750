//! A run of calls, from the making of the checker on.
ghost use Rattle.runs.specs.Conducted.{Conducted};

use crate::perform::run;
use crate::pool::Slot;
use book::book::Book;
use calls::call::Call;
use calls::candidate::Candidate;
use calls::event::Event;
use checker::checker::Checker;
use shelves::stock::Shelf;

/// The book and the shelf back, where there was no memory for a run.
#[derive(Drop)]
pub struct Unmade<S> {
    pub book: Book,
    pub shelf: S,
}

/// Makes a checker and then the calls in order, each under the slip in its slot, and notes each with its answer at the end
/// of the log. A slip that is handed out goes into a new slot at the end of the pool; one that is spent leaves its slot
/// empty. Memory is reserved before the first call.
pub fn conduct<W: Candidate, S: Shelf>(
    book: Book,
    shelf: S,
    number: u16,
    calls: &[Call],
    pool: &mut Vec<Slot>,
    log: &mut Vec<Event>,
) -> Result<Checker<S>, Unmade<S>>
    ensures { Conducted S.Stock.list S.Shelf.free W.Candidate.has book shelf number calls.now pool.old.items log.old.items result pool.new.items log.new.items }
{
    if pool.reserve(calls.len()).is_err() || log.reserve(calls.len()).is_err() {
        return Err(Unmade { book, shelf });
    }
    let mut checker = Checker::new(book, shelf, number);
    run::<W, S>(&mut checker, calls, pool, log);
    Ok(checker)
}
