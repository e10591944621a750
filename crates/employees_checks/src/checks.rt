//! Checks, from the lodging of the facts to the last verdict.
ghost use Rattle.semantics.specs.Subject.{Atom};

use crate::calls_made::{clash, counter_model, derivation, lodgings};
use crate::show::show_event;
use anyhow::anyhow;
use book::book::Book;
use calls::call::Call;
use calls::candidate::Candidate;
use calls::event::Event;
use checker::checker::Checker;
use flat_shelf::flat::FlatShelf;
use runs::conduct::conduct;
use runs::pool::{HeldSlip, Slot};
use shelves::record::Record;
use shelves::stock::Shelf;
use std::alloc::{AllocError, Global};

/// The candidate that has every atom. What is promised of it is promised of every other one too.
struct Everything;

impl Candidate for Everything {
    ghost has = { λ _. Unit {0} };
}

/// Makes all calls on a shelf of eight records, and prints each with its answer.
pub(crate) fn check_all(rt: &HostRuntime, book: Book) -> anyhow::Result<()> {
    let mut records = [Record::blank(); 8];
    check_on(rt, book, FlatShelf::new(&mut records))
}

/// The same on that shelf.
fn check_on<S: Shelf + Drop>(rt: &HostRuntime, book: Book, shelf: S) -> anyhow::Result<()> {
    let calls = all_calls(rt.alloc())?;
    let mut pool = Vec::new(rt.alloc());
    let mut log = Vec::new(rt.alloc());
    match conduct::<Everything, S>(book, shelf, 7, &calls, &mut pool, &mut log) {
        Ok(checker) => strike_all(checker, pool),
        Err(_) => {
            pool.destroy_empty();
            return Err(anyhow!("no memory"));
        }
    }
    for (i, event) in log.iter().enumerate() {
        show_event(rt, i + 1, *event)?;
    }
    Ok(())
}

fn all_calls(heap: Global) -> Result<Vec<Call>, AllocError> {
    let mut calls = Vec::new(heap);
    calls.extend_from_slice(&lodgings())?;
    calls.extend_from_slice(&derivation())?;
    calls.extend_from_slice(&counter_model())?;
    calls.extend_from_slice(&clash())?;
    Ok(calls)
}

/// Spends what slips are left in the pool.
fn strike_all<S: Shelf + Drop>(mut checker: Checker<S>, mut pool: Vec<Slot>) {
    // A `for` asks that what it has not come to may be let go, and a slip may not.
    while let Some(slot) = pool.pop() {
        match slot {
            None => {}
            Some(HeldSlip::Derivation(slip)) => {
                let _ = checker.strike(slip);
            }
            Some(HeldSlip::Model(slip)) => {
                let _ = checker.strike(slip);
            }
        }
    }
    pool.destroy_empty();
}
