//! Lodging and opening.
use checker::checker::Checker;
use checker::kind::{Derivation, Kind, Model};
use flat_shelf::flat::FlatShelf;
use reading::raw::RawAtom;
use shelves::record::Record;
use shelves::stock::Shelf;
use std::test::Fail;
use trials::raw::{k, n, one, two, v};
use trials::runs::{lodges, opens};
use trials::said::{Said, refused, struck, taken};
use trials::small::small_book;

#[test]
fn no_facts_of_the_book(rt: HostRuntime) -> Result<(), Fail> {
    let book = small_book(rt.alloc())?;
    let mut records = [Record::blank(); 4];
    let mut checker = Checker::new(book, FlatShelf::new(&mut records), 7);
    let said = lodges(&mut checker, [two(9, n(0), v(0)), one(0, k(17))]);
    assert_eq!(rt; said, [Said::Refused(3, 0, 9), Said::Refused(3, 0, 0)]);
    let said = lodges(&mut checker, [two(1, n(0), v(0)), RawAtom::new(1, &[])]);
    assert_eq!(rt; said, [Said::Refused(4, 0, 2), Said::Refused(4, 0, 0)]);
    let said = lodges(&mut checker, [two(2, k(17), n(0)), two(2, v(1), n(0))]);
    assert_eq!(rt; said, [Said::Refused(5, 0, 1), Said::Refused(5, 0, 0)]);
    let said = lodges(&mut checker, [one(1, k(0)), one(1, k(1000000))]);
    assert_eq!(rt; said, [Said::Refused(5, 0, 0), Said::Refused(5, 0, 0)]);
    assert_eq!(rt; checker.size(), 0);
    Ok(())
}

/// On one record: a fact that is there is already there, a new one finds the shelf full, and an unfit one is unfit.
#[test]
fn a_full_shelf(rt: HostRuntime) -> Result<(), Fail> {
    let book = small_book(rt.alloc())?;
    let mut records = [Record::blank()];
    let mut checker = Checker::new(book, FlatShelf::new(&mut records), 7);
    let facts = [one(1, k(17)), one(1, k(18)), one(1, k(17)), one(1, n(0))];
    let numbers = [
        Said::At(0),
        Said::Refused(10, 0, 0),
        Said::Already,
        Said::Refused(5, 0, 0),
    ];
    assert_eq!(rt; lodges(&mut checker, facts), numbers);
    assert_eq!(rt; checker.size(), 1);
    Ok(())
}

/// What lodging and opening are refused with, while a check is open.
fn while_open<K: Kind, S: Shelf>(checker: &mut Checker<S>) -> [Said; 4] {
    match checker.open::<K>(1) {
        Err(refusal) => [refused(refusal); 4],
        Ok(slip) => {
            let lodged = taken(checker.lodge(&one(9, n(0))));
            let [first, second] = opens(checker, 9);
            [lodged, first, second, struck(checker.strike(slip))]
        }
    }
}

#[test]
fn while_a_check_is_open(rt: HostRuntime) -> Result<(), Fail> {
    let book = small_book(rt.alloc())?;
    let mut records = [Record::blank()];
    let mut checker = Checker::new(book, FlatShelf::new(&mut records), 7);
    let numbers = [
        Said::Refused(9, 0, 0),
        Said::Refused(21, 0, 0),
        Said::Refused(21, 0, 0),
        Said::Struck,
    ];
    assert_eq!(rt;
        while_open::<Derivation, FlatShelf<'_>>(&mut checker),
        numbers
    );
    assert_eq!(rt; while_open::<Model, FlatShelf<'_>>(&mut checker), numbers);
    assert_eq!(rt; checker.check(), None);
    assert_eq!(rt; taken(checker.lodge(&one(1, k(17)))), Said::At(0));
    Ok(())
}

#[test]
fn queries_by_number(rt: HostRuntime) -> Result<(), Fail> {
    let book = small_book(rt.alloc())?;
    let mut records: [Record; 0] = [];
    let mut checker = Checker::new(book, FlatShelf::new(&mut records), 7);
    assert_eq!(rt; opens(&mut checker, 0), [Said::Refused(11, 0, 0); 2]);
    assert_eq!(rt; opens(&mut checker, 5), [Said::Refused(11, 5, 0); 2]);
    assert_eq!(rt; opens(&mut checker, 1), [Said::Struck; 2]);
    assert_eq!(rt; opens(&mut checker, 4), [Said::Struck; 2]);
    Ok(())
}
