//! Patterns and ground atoms from raw terms.
use atoms::atom::{Atom, GroundAtom, Pattern};
use reading::raw::RawTerm;
use reading::sort::{Sort, read_row};
use refusals::refusal::Refusal;
use short_rows::row::Row;
use terms::predicate::Predicate;

/// What is written is no atom.
#[derive(Clone, Copy, Debug)]
pub(crate) struct Unfit;

pub(crate) fn v(number: u32) -> RawTerm {
    RawTerm::Variable(number)
}

pub(crate) fn c(number: u32) -> RawTerm {
    RawTerm::Constant(number)
}

pub(crate) fn pattern(predicate: usize, terms: &[RawTerm]) -> Result<Pattern, Unfit> {
    read(predicate, terms)
}

pub(crate) fn atom(predicate: usize, terms: &[RawTerm]) -> Result<GroundAtom, Unfit> {
    read(predicate, terms)
}

fn read<T: Sort>(predicate: usize, terms: &[RawTerm]) -> Result<Atom<T>, Unfit> {
    let predicate = Predicate::new(predicate).ok_or(Unfit)?;
    let row = Row::from_slice(terms).ok_or(Unfit)?;
    let terms = read_row(row).map_err(|_| Unfit)?;
    Ok(Atom { predicate, terms })
}

/// The number and the figures of a refusal.
pub(crate) fn figures(refusal: Refusal) -> (u8, usize, usize) {
    let (first, second) = refusal.figures();
    (refusal.number(), first, second)
}
