//! One call of a list after the other.
//!
//! Checker and pool stay two parameters: the caller lends the pool, the checker is made here and handed out, and a struct of
//! the two would hold the one by reference and lengthen each clause.
ghost use Rattle.checker.specs.Views.{view};
ghost use Rattle.std.specs.Prelude.{◌≡◌, ◌+◌, ◌<◌, ◌≤◌, length, vec_len, vec_capacity};
ghost use Rattle.calls.specs.declared.call.Call.TheVariants.{Under};
ghost use Rattle.runs.specs.Conducted.{Performed, Went, Stored};

use crate::pool::{HeldSlip, Slot};
use crate::under::under;
use calls::call::{Call, SlipCall};
use calls::candidate::Candidate;
use calls::event::Event;
use checker::checker::Checker;
use refusals::refusal::Refusal;
use shelves::stock::Shelf;

/// A call under the slip in a slot. What is left of the slip goes back there.
fn perform_under<W: Candidate, S: Shelf>(
    checker: &mut Checker<S>,
    pool: &mut Vec<Slot>,
    slot: usize,
    call: SlipCall,
) -> Event
    ensures done { Performed (view S.Stock.list S.Shelf.free checker.old) pool.old.items (Under slot call) result (view S.Stock.list S.Shelf.free checker.new) pool.new.items }
    ensures len { vec_len pool.new ≡ vec_len pool.old }
    ensures room { vec_capacity pool.new ≡ vec_capacity pool.old }
{
    let Some(place) = pool.get_mut(slot) else {
        return Event::NoSlip;
    };
    let (back, event) = under::<W, S>(checker, place.take(), call);
    match std::mem::replace(place, back) {
        None => event,
        Some(_slip) => unreachable!(),
    }
}

/// A slip that was handed out goes into a new slot.
fn store(pool: &mut Vec<Slot>, opened: Result<HeldSlip, Refusal>) -> Result<(), Refusal>
    requires { vec_len pool.old < vec_capacity pool.old }
    ensures stored { Stored pool.old.items opened result pool.new.items }
    ensures len { vec_len pool.new ≤ vec_len pool.old + 1 }
    ensures room { vec_capacity pool.new ≡ vec_capacity pool.old }
{
    let slip = opened?;
    pool.push_reserved(Some(slip));
    Ok(())
}

/// One call of a list.
pub(crate) fn perform<W: Candidate, S: Shelf>(
    checker: &mut Checker<S>,
    pool: &mut Vec<Slot>,
    call: Call,
) -> Event
    requires { vec_len pool.old < vec_capacity pool.old }
    ensures done { Performed (view S.Stock.list S.Shelf.free checker.old) pool.old.items call result (view S.Stock.list S.Shelf.free checker.new) pool.new.items }
    ensures len { vec_len pool.new ≤ vec_len pool.old + 1 }
    ensures room { vec_capacity pool.new ≡ vec_capacity pool.old }
{
    match call {
        Call::Lodge(fact) => Event::Lodge(fact, checker.lodge(&fact)),
        Call::OpenDerivation(query) => {
            let opened = checker.open(query).map(HeldSlip::Derivation);
            Event::OpenDerivation(query, store(pool, opened))
        }
        Call::OpenModel(query) => {
            let opened = checker.open(query).map(HeldSlip::Model);
            Event::OpenModel(query, store(pool, opened))
        }
        Call::Under { slot, call } => perform_under::<W, S>(checker, pool, slot, call),
    }
}

/// Makes the calls in order, and notes each with its answer.
pub(crate) fn run<W: Candidate, S: Shelf>(
    checker: &mut Checker<S>,
    calls: &[Call],
    pool: &mut Vec<Slot>,
    log: &mut Vec<Event>,
)
    requires slots { vec_len pool.old + length calls.now ≤ vec_capacity pool.old }
    requires notes { vec_len log.old + length calls.now ≤ vec_capacity log.old }
    ensures { Went (view S.Stock.list S.Shelf.free checker.old) pool.old.items calls.now log.old.items (view S.Stock.list S.Shelf.free checker.new) pool.new.items log.new.items }
{
    for call in calls {
        let event = perform::<W, S>(checker, pool, *call);
        log.push_reserved(event);
    }
}
