//! The calls of a day: facts lodged, a derivation, a counter-model, a constraint met, and calls that are refused.
use crate::personnel::{ADA, BILL, FINANCE, JO, TOYS, V1};
use calls::call::{Call, SlipCall};
use calls::places::Places;
use reading::raw::{RawAtom, RawTerm};

/// The facts, one of them twice, and one that is none.
pub(crate) fn lodgings() -> [Call; 9] {
    [
        Call::Lodge(RawAtom::new(1, &[JO])),
        Call::Lodge(RawAtom::new(2, &[JO])),
        Call::Lodge(RawAtom::new(3, &[JO, FINANCE])),
        Call::Lodge(RawAtom::new(4, &[JO, ADA])),
        Call::Lodge(RawAtom::new(1, &[ADA])),
        Call::Lodge(RawAtom::new(5, &[ADA, FINANCE])),
        Call::Lodge(RawAtom::new(2, &[ADA])),
        Call::Lodge(RawAtom::new(1, &[JO])),
        Call::Lodge(RawAtom::new(3, &[JO, RawTerm::Null(0)])),
    ]
}

/// Ada directs something: query 4, derived by rule 2. Its slip is in slot 0.
pub(crate) fn derivation() -> [Call; 9] {
    let slot = 0;
    [
        Call::OpenDerivation(4),
        Call::Lodge(RawAtom::new(1, &[BILL])),
        step(slot, 2, 6),
        step(slot, 3, 7),
        step(slot, 4, 8),
        step(slot, 3, 3),
        claim(slot, &[0]),
        claim(slot, &[7]),
        step(slot, 2, 6),
    ]
}

/// Ada need not direct finance: a model without query 3. Its slip is in slot 1.
pub(crate) fn counter_model() -> [Call; 10] {
    let slot = 1;
    [
        Call::OpenModel(3),
        Call::OpenDerivation(3),
        add(slot, RawAtom::new(3, &[ADA, TOYS])),
        add(slot, RawAtom::new(4, &[ADA, BILL])),
        add(slot, RawAtom::new(5, &[BILL, TOYS])),
        add(slot, RawAtom::new(6, &[JO, FINANCE, ADA])),
        under(slot, SlipCall::Refute),
        add(slot, RawAtom::new(6, &[ADA, TOYS, V1])),
        add(slot, RawAtom::new(6, &[ADA, TOYS, BILL])),
        under(slot, SlipCall::Refute),
    ]
}

/// Jo, a manager, comes to work in toys, which constraint 1 rules out. The slip is in slot 2, and the next in slot 3.
pub(crate) fn clash() -> [Call; 9] {
    let slot = 2;
    [
        Call::Lodge(RawAtom::new(5, &[JO, TOYS])),
        Call::Lodge(RawAtom::new(1, &[BILL])),
        Call::OpenDerivation(9),
        Call::OpenDerivation(1),
        meet(slot, 2, &[1, 7]),
        meet(slot, 1, &[1, 7]),
        Call::OpenModel(2),
        under(3, SlipCall::Strike),
        under(3, SlipCall::Strike),
    ]
}

fn under(slot: usize, call: SlipCall) -> Call {
    Call::Under { slot, call }
}

fn step(slot: usize, rule: usize, place: usize) -> Call {
    under(slot, SlipCall::Step { rule, place })
}

fn add(slot: usize, atom: RawAtom) -> Call {
    under(slot, SlipCall::Add(atom))
}

fn claim(slot: usize, places: &[usize]) -> Call {
    under(slot, SlipCall::Claim(Places::new(places)))
}

fn meet(slot: usize, constraint: usize, places: &[usize]) -> Call {
    let places = Places::new(places);
    under(slot, SlipCall::Clash { constraint, places })
}
