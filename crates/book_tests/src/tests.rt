//! Shorthands, and the tests that use them.
use book::draft::Draft;
use reading::raw::{RawAtom, RawTerm};
use refusals::refusal::Refusal;
use std::alloc::Global;
use std::process::Abort;
use std::test::Fail;

mod entries;
mod guards;
mod limits;

fn v(number: u32) -> RawTerm {
    RawTerm::Variable(number)
}

fn c(number: u32) -> RawTerm {
    RawTerm::Constant(number)
}

fn one(predicate: usize, a: RawTerm) -> RawAtom {
    RawAtom::new(predicate, &[a])
}

fn two(predicate: usize, a: RawTerm, b: RawTerm) -> RawAtom {
    RawAtom::new(predicate, &[a, b])
}

/// The number and the figures of a refusal, or 0 with what was answered.
fn answer(r: Result<usize, Refusal>) -> (u8, usize, usize) {
    match r {
        Ok(number) => (0, number, 0),
        Err(refusal) => {
            let (first, second) = refusal.figures();
            (refusal.number(), first, second)
        }
    }
}

/// A draft with the predicates 1, 2 and 3, of the arities 1, 2 and 1.
fn start(rt: &impl Abort, heap: Global) -> Result<Draft, Fail> {
    let mut draft = Draft::new(heap)?;
    assert_eq!(rt; answer(draft.declare(1)), (0, 1, 0));
    assert_eq!(rt; answer(draft.declare(2)), (0, 2, 0));
    assert_eq!(rt; answer(draft.declare(1)), (0, 3, 0));
    Ok(draft)
}
