//! The personnel catalogue: predicates, rules, a constraint and queries.
//! 1 employee, 2 manager, 3 directs, 4 supervises, 5 works in, and 6, which splits the head with three atoms.
//! The other example has a catalogue of its own, since it wants other entries, and a library for both would promise nothing.
use book::draft::Draft;
use reading::raw::{RawAtom, RawTerm};
use refusals::refusal::Refusal;

pub(crate) const V1: RawTerm = RawTerm::Variable(1);

const V2: RawTerm = RawTerm::Variable(2);

const V3: RawTerm = RawTerm::Variable(3);

pub(crate) const JO: RawTerm = RawTerm::Constant(11);

pub(crate) const ADA: RawTerm = RawTerm::Constant(12);

pub(crate) const BILL: RawTerm = RawTerm::Constant(13);

pub(crate) const FINANCE: RawTerm = RawTerm::Constant(21);

pub(crate) const TOYS: RawTerm = RawTerm::Constant(22);

/// Writes the whole book down.
pub(crate) fn write_down(draft: &mut Draft) -> Result<(), Refusal> {
    for arity in [1, 1, 2, 2, 2, 3] {
        draft.declare(arity)?;
    }
    write_rules(draft)?;
    draft.constraint(&[RawAtom::new(2, &[V1]), RawAtom::new(5, &[V1, TOYS])])?;
    write_queries(draft)
}

fn write_rules(draft: &mut Draft) -> Result<(), Refusal> {
    let employee = RawAtom::new(1, &[V1]);
    let manager = RawAtom::new(2, &[V1]);
    let directs = RawAtom::new(3, &[V1, V2]);
    let leads = RawAtom::new(6, &[V1, V2, V3]);
    draft.rule(&[manager], &employee)?;
    draft.rule(&[manager], &directs)?;
    draft.rule(&[employee, directs], &leads)?;
    draft.rule(&[leads], &manager)?;
    draft.rule(&[leads], &RawAtom::new(4, &[V1, V3]))?;
    draft.rule(&[leads], &RawAtom::new(5, &[V3, V2]))?;
    let supervises = RawAtom::new(4, &[V1, V2]);
    draft.rule(&[employee, supervises, RawAtom::new(2, &[V2])], &manager)?;
    Ok(())
}

fn write_queries(draft: &mut Draft) -> Result<(), Refusal> {
    draft.query(&[RawAtom::new(2, &[V1]), RawAtom::new(3, &[V1, FINANCE])])?;
    draft.query(&[RawAtom::new(1, &[JO])])?;
    draft.query(&[RawAtom::new(3, &[ADA, FINANCE])])?;
    draft.query(&[RawAtom::new(3, &[ADA, V1])])?;
    Ok(())
}
