//! Atoms to put, and many of them put.
use atoms::atom::{Atom, GroundAtom};
use shelves::stock::{Shelf, Stock};
use shelves::taken::Taken;
use short_rows::row::Row;
use std::process::Abort;
use std::test::Fail;
use terms::constant::Constant;
use terms::predicate::Predicate;
use terms::term::Term;

/// There is none.
#[derive(Clone, Copy, Debug)]
pub(crate) struct Missing;

/// Predicate 1 with the constant of that number.
pub(crate) fn atom(number: u32) -> Result<GroundAtom, Missing> {
    let predicate = Predicate::new(1).ok_or(Missing)?;
    let constant = Constant::new(number).ok_or(Missing)?;
    let terms = Row::one(Term::Constant(constant));
    Ok(Atom { predicate, terms })
}

/// Puts the atoms 1, 2, .. up to `count` on an empty shelf, each at the next place.
pub(crate) fn fill<S: Shelf>(rt: &impl Abort, shelf: &mut S, count: u32) -> Result<(), Fail> {
    for i in 0..count {
        assert_eq!(rt; shelf.put(atom(i + 1)?), Ok(Taken::At(i as usize)));
    }
    Ok(())
}
