//! Calls of a list under what is held in their slot.
ghost use Rattle.checker.specs.Views.{plain, view};
ghost use Rattle.runs.specs.Conducted.{Used};
ghost use Rattle.runs.specs.Pools.{back_of};
ghost use Rattle.runs.specs.declared.pool.HeldSlip.TheVariants as held;
ghost use Rattle.std.specs.Option.{option_map};
ghost use Rattle.std.specs.Prelude.{◌≡◌, Some};

use crate::pool::{HeldSlip, Slot};
use calls::call::SlipCall;
use calls::candidate::Candidate;
use calls::event::Event;
use checker::checker::Checker;
use checker::slip::{DerivationSlip, ModelSlip, Returned};
use refusals::refusal::Refusal;
use shelves::stock::Shelf;

/// The slip that is handed back, if one is, and the answer without it.
fn apart<T, L>(answer: Result<T, Returned<L>>) -> (Option<L>, Result<T, Refusal>)
    ensures back { result.0 ≡ back_of answer }
    ensures answer { result.1 ≡ plain answer }
{
    match answer {
        Ok(value) => (None, Ok(value)),
        Err(Returned { refusal, slip }) => (Some(slip), Err(refusal)),
    }
}

/// What is left of the slip, and the call with its answer.
fn under_derivation<W: Candidate, S: Shelf>(
    checker: &mut Checker<S>,
    own: DerivationSlip,
    call: SlipCall,
) -> (Option<DerivationSlip>, Event)
    ensures { Used (view S.Stock.list S.Shelf.free checker.old) (Some (held.Derivation own)) call result.1 (view S.Stock.list S.Shelf.free checker.new) (option_map held.Derivation result.0) }
{
    let slip = own.number();
    match call {
        SlipCall::Step { rule, place } => {
            let answer = checker.step(&own, rule, place);
            let event = Event::Step {
                slip,
                rule,
                place,
                answer,
            };
            (Some(own), event)
        }
        SlipCall::Claim(places) => {
            let (back, answer) = apart(checker.claim::<W>(own, places));
            let event = Event::Claim {
                slip,
                places,
                answer,
            };
            (back, event)
        }
        SlipCall::Clash { constraint, places } => {
            let (back, answer) = apart(checker.clash::<W>(own, constraint, places));
            let event = Event::Clash {
                slip,
                constraint,
                places,
                answer,
            };
            (back, event)
        }
        SlipCall::Strike => {
            let answer = checker.strike(own);
            (None, Event::StrikeDerivation { slip, answer })
        }
        SlipCall::Add(_) | SlipCall::Refute => (Some(own), Event::NoSlip),
    }
}

/// What is left of the slip, and the call with its answer.
fn under_model<W: Candidate, S: Shelf>(
    checker: &mut Checker<S>,
    own: ModelSlip,
    call: SlipCall,
) -> (Option<ModelSlip>, Event)
    ensures { Used (view S.Stock.list S.Shelf.free checker.old) (Some (held.Model own)) call result.1 (view S.Stock.list S.Shelf.free checker.new) (option_map held.Model result.0) }
{
    let slip = own.number();
    match call {
        SlipCall::Add(atom) => {
            let answer = checker.add(&own, &atom);
            (Some(own), Event::Add { slip, atom, answer })
        }
        SlipCall::Refute => {
            let (back, answer) = apart(checker.refute::<W>(own));
            (back, Event::Refute { slip, answer })
        }
        SlipCall::Strike => {
            let answer = checker.strike(own);
            (None, Event::StrikeModel { slip, answer })
        }
        SlipCall::Step { .. } | SlipCall::Claim(_) | SlipCall::Clash { .. } => (
            Some(own),
            Event::NoSlip,
        ),
    }
}

/// What goes back into the slot, and the call with its answer.
pub(crate) fn under<W: Candidate, S: Shelf>(
    checker: &mut Checker<S>,
    held: Slot,
    call: SlipCall,
) -> (Slot, Event)
    ensures { Used (view S.Stock.list S.Shelf.free checker.old) held call result.1 (view S.Stock.list S.Shelf.free checker.new) result.0 }
{
    match held {
        None => (None, Event::NoSlip),
        Some(HeldSlip::Derivation(slip)) => {
            let (back, event) = under_derivation::<W, S>(checker, slip, call);
            (back.map(HeldSlip::Derivation), event)
        }
        Some(HeldSlip::Model(slip)) => {
            let (back, event) = under_model::<W, S>(checker, slip, call);
            (back.map(HeldSlip::Model), event)
        }
    }
}
