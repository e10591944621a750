//! The personnel catalogue, and the tests that use it.
//! 1 employee, 2 manager, 3 directs, 4 supervises, 5 works in, and 6, which splits the head with three atoms.
mod entailed;
mod refuted;
mod worked;

use book::book::Book;
use book::draft::Draft;
use reading::raw::{RawAtom, RawTerm};
use refusals::refusal::Refusal;
use std::alloc::Global;
use std::test::Fail;
use trials::raw::{one, three, two, v};

const JO: RawTerm = RawTerm::Constant(11);

const ADA: RawTerm = RawTerm::Constant(12);

const BILL: RawTerm = RawTerm::Constant(13);

const TOM: RawTerm = RawTerm::Constant(14);

const FINANCE: RawTerm = RawTerm::Constant(21);

const TOYS: RawTerm = RawTerm::Constant(22);

/// Seven rules, no constraint and five queries.
fn personnel(heap: Global) -> Result<Book, Fail> {
    let mut draft = Draft::new(heap)?;
    for arity in [1, 1, 2, 2, 2, 3] {
        draft.declare(arity)?;
    }
    write_rules(&mut draft)?;
    write_queries(&mut draft)?;
    Ok(draft.seal())
}

fn write_rules(draft: &mut Draft) -> Result<(), Refusal> {
    let employee = || one(1, v(1));
    let manager = || one(2, v(1));
    let directs = || two(3, v(1), v(2));
    let leads = || three(6, v(1), v(2), v(3));
    draft.rule(&[manager()], &employee())?;
    draft.rule(&[manager()], &directs())?;
    draft.rule(&[employee(), directs()], &leads())?;
    draft.rule(&[leads()], &manager())?;
    draft.rule(&[leads()], &two(4, v(1), v(3)))?;
    draft.rule(&[leads()], &two(5, v(3), v(2)))?;
    draft.rule(&[employee(), two(4, v(1), v(2)), one(2, v(2))], &manager())?;
    Ok(())
}

/// Some manager directs finance; Jo is an employee; Ada directs finance; Ada directs something; Ada directs toys.
fn write_queries(draft: &mut Draft) -> Result<(), Refusal> {
    draft.query(&[one(2, v(1)), two(3, v(1), FINANCE)])?;
    draft.query(&[one(1, JO)])?;
    draft.query(&[two(3, ADA, FINANCE)])?;
    draft.query(&[two(3, ADA, v(1))])?;
    draft.query(&[two(3, ADA, TOYS)])?;
    Ok(())
}

/// Jo is an employee and a manager, directs finance and supervises Ada, an employee, who works there.
fn six_facts() -> [RawAtom; 6] {
    [
        one(1, JO),
        one(2, JO),
        two(3, JO, FINANCE),
        two(4, JO, ADA),
        one(1, ADA),
        two(5, ADA, FINANCE),
    ]
}

/// The same, and that Jo leads Ada in finance, which makes them a model.
fn database() -> [RawAtom; 7] {
    [
        one(1, JO),
        one(2, JO),
        two(3, JO, FINANCE),
        two(4, JO, ADA),
        one(1, ADA),
        two(5, ADA, FINANCE),
        three(6, JO, FINANCE, ADA),
    ]
}
