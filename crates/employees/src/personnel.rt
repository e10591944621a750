//! The personnel catalogue: predicates, rules, queries and facts.
//! 1 employee, 2 manager, 3 directs, 4 supervises, 5 works in, and 6, which splits the head with three atoms.
//! The other example has a catalogue of its own, since it wants other entries, and a library for both would promise nothing.
use book::book::Book;
use book::draft::Draft;
use reading::raw::{RawAtom, RawTerm};
use refusals::refusal::Refusal;

const V1: RawTerm = RawTerm::Variable(1);

const V2: RawTerm = RawTerm::Variable(2);

const V3: RawTerm = RawTerm::Variable(3);

const JO: RawTerm = RawTerm::Constant(11);

const ADA: RawTerm = RawTerm::Constant(12);

const FINANCE: RawTerm = RawTerm::Constant(21);

/// Writes the whole book down.
pub(crate) fn write_down(draft: &mut Draft) -> Result<(), Refusal> {
    for arity in [1, 1, 2, 2, 2, 3] {
        draft.declare(arity)?;
    }
    write_rules(draft)?;
    write_queries(draft)
}

fn write_rules(draft: &mut Draft) -> Result<(), Refusal> {
    let employee = RawAtom::new(1, &[V1]);
    let manager = RawAtom::new(2, &[V1]);
    let directs = RawAtom::new(3, &[V1, V2]);
    let leads = RawAtom::new(6, &[V1, V2, V3]);
    draft.rule(&[manager], &employee)?;
    draft.rule(&[manager], &directs)?;
    draft.rule(&[employee, directs], &leads)?;
    draft.rule(&[leads], &manager)?;
    draft.rule(&[leads], &RawAtom::new(4, &[V1, V3]))?;
    draft.rule(&[leads], &RawAtom::new(5, &[V3, V2]))?;
    let supervises = RawAtom::new(4, &[V1, V2]);
    draft.rule(&[employee, supervises, RawAtom::new(2, &[V2])], &manager)?;
    Ok(())
}

fn write_queries(draft: &mut Draft) -> Result<(), Refusal> {
    draft.query(&[RawAtom::new(2, &[V1]), RawAtom::new(3, &[V1, FINANCE])])?;
    draft.query(&[RawAtom::new(1, &[JO])])?;
    draft.query(&[RawAtom::new(3, &[ADA, FINANCE])])?;
    Ok(())
}

/// The database, with its first fact once more at the end.
pub(crate) fn facts() -> [RawAtom; 8] {
    [
        RawAtom::new(1, &[JO]),
        RawAtom::new(2, &[JO]),
        RawAtom::new(3, &[JO, FINANCE]),
        RawAtom::new(4, &[JO, ADA]),
        RawAtom::new(1, &[ADA]),
        RawAtom::new(5, &[ADA, FINANCE]),
        RawAtom::new(2, &[ADA]),
        RawAtom::new(1, &[JO]),
    ]
}

/// Tries entries that are refused.
pub(crate) fn unfit_entries(rt: &HostRuntime, draft: &mut Draft) -> anyhow::Result<()> {
    let first = RawAtom::new(4, &[V1, V2]);
    let second = RawAtom::new(4, &[V2, V3]);
    let head = RawAtom::new(4, &[V1, V3]);
    if let Err(refusal) = draft.rule(&[first, second], &head) {
        println!(rt; "rule 4 v1 v2,4 v2 v3;4 v1 v3: {refusal}")?;
    }
    if let Err(refusal) = draft.query(&[RawAtom::new(7, &[V1])]) {
        println!(rt; "query 7 v1: {refusal}")?;
    }
    if let Err(refusal) = draft.rule(&[RawAtom::new(2, &[V1])], &RawAtom::new(3, &[V1])) {
        println!(rt; "rule 2 v1;3 v1: {refusal}")?;
    }
    Ok(())
}

/// Tries facts that are refused.
pub(crate) fn unfit_facts(rt: &HostRuntime, book: &Book) -> anyhow::Result<()> {
    let null = RawAtom::new(3, &[JO, RawTerm::Null(0)]);
    if let Err(refusal) = book.check::<terms::constant::Constant>(0, &null) {
        println!(rt; "fact 3 11 n0: {refusal}")?;
    }
    let short = RawAtom::new(3, &[JO]);
    if let Err(refusal) = book.check::<terms::constant::Constant>(0, &short) {
        println!(rt; "fact 3 11: {refusal}")?;
    }
    Ok(())
}
