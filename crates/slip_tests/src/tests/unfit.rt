//! Shelves with atoms that are no facts of the book, or that repeat.
use atoms::atom::{Atom, GroundAtom};
use checker::checker::Checker;
use flat_shelf::flat::FlatShelf;
use shelves::record::Record;
use shelves::stock::Shelf;
use short_rows::row::Row;
use std::test::Fail;
use terms::constant::Constant;
use terms::null::Null;
use terms::predicate::Predicate;
use terms::term::Term;
use trials::fixed::Fixed;
use trials::raw::{k, one};
use trials::runs::{lodges, opens};
use trials::said::Said;
use trials::small::small_book;

/// There is none.
#[derive(Clone, Copy, Debug)]
struct Missing;

fn constant(number: u32) -> Result<Term, Missing> {
    Ok(Term::Constant(Constant::new(number).ok_or(Missing)?))
}

/// The predicate with one constant.
fn single(predicate: usize, number: u32) -> Result<GroundAtom, Missing> {
    let predicate = Predicate::new(predicate).ok_or(Missing)?;
    let terms = Row::one(constant(number)?);
    Ok(Atom { predicate, terms })
}

fn record(predicate: usize, number: u32) -> Result<Record, Missing> {
    let atom = single(predicate, number)?;
    Ok(Record { atom })
}

/// Predicate 2 with 17 and null 0.
fn with_null() -> Result<GroundAtom, Missing> {
    let predicate = Predicate::new(2).ok_or(Missing)?;
    let null = Term::Null(Null::new(0).ok_or(Missing)?);
    let terms = Row::from_slice(&[constant(17)?, null]).ok_or(Missing)?;
    Ok(Atom { predicate, terms })
}

#[test]
fn a_null_on_the_shelf(rt: HostRuntime) -> Result<(), Fail> {
    let mut records = [Record::blank(); 4];
    let mut shelf = FlatShelf::new(&mut records);
    let _ = shelf.put(single(1, 17)?);
    let _ = shelf.put(with_null()?);
    let mut checker = Checker::new(small_book(rt.alloc())?, shelf, 7);
    assert_eq!(rt; opens(&mut checker, 1), [Said::Refused(23, 1, 0); 2]);
    assert_eq!(rt; opens(&mut checker, 5), [Said::Refused(11, 5, 0); 2]);
    assert_eq!(rt; lodges(&mut checker, [one(1, k(18))]), [Said::At(2)]);
    assert_eq!(rt; opens(&mut checker, 4), [Said::Refused(23, 1, 0); 2]);
    Ok(())
}

/// Predicate 9 is not declared, and predicate 2 takes two terms.
#[test]
fn no_atoms_of_the_book(rt: HostRuntime) -> Result<(), Fail> {
    let mut records = [Record::blank(); 4];
    let mut shelf = FlatShelf::new(&mut records);
    let _ = shelf.put(single(9, 17)?);
    let _ = shelf.put(single(2, 17)?);
    let mut checker = Checker::new(small_book(rt.alloc())?, shelf, 7);
    assert_eq!(rt; opens(&mut checker, 1), [Said::Refused(23, 0, 0); 2]);
    let records = [record(3, 17)?, record(1, 17)?, record(2, 17)?];
    let mut checker = Checker::new(small_book(rt.alloc())?, Fixed { records: &records }, 7);
    assert_eq!(rt; opens(&mut checker, 1), [Said::Refused(23, 2, 0); 2]);
    Ok(())
}

#[test]
fn a_repeat_on_the_shelf(rt: HostRuntime) -> Result<(), Fail> {
    let records = [
        record(1, 17)?,
        record(1, 18)?,
        record(1, 17)?,
        record(1, 18)?,
    ];
    let mut checker = Checker::new(small_book(rt.alloc())?, Fixed { records: &records }, 7);
    assert_eq!(rt; opens(&mut checker, 1), [Said::Refused(23, 2, 0); 2]);
    let records = [record(1, 17)?, record(1, 18)?];
    let mut checker = Checker::new(small_book(rt.alloc())?, Fixed { records: &records }, 7);
    assert_eq!(rt; opens(&mut checker, 1), [Said::Struck; 2]);
    Ok(())
}
