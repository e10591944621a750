//! Claims and clashes.
use calls::answer::Verdict;
use calls::places::Places;
use checker::checker::Checker;
use flat_shelf::flat::FlatShelf;
use shelves::record::Record;
use std::test::Fail;
use trials::raw::{k, one, two};
use trials::runs::{claims, lodges};
use trials::said::Said;
use trials::small::small_book;

#[test]
fn claims_at_wrong_numbers_of_places(rt: HostRuntime) -> Result<(), Fail> {
    let book = small_book(rt.alloc())?;
    let mut records = [Record::blank(); 4];
    let mut checker = Checker::new(book, FlatShelf::new(&mut records), 7);
    let _ = lodges(&mut checker, [one(1, k(17)), two(2, k(17), k(18))]);
    let none = Places::new(&[]);
    let five = Places::new(&[9, 9, 9, 9, 9]);
    let said = claims(&mut checker, 1, [none, five]);
    assert_eq!(rt; said, [Said::Refused(16, 0, 0), Said::Refused(16, 5, 0)]);
    let said = claims(
        &mut checker,
        4,
        [Places::new(&[0]), Places::new(&[0, 1, 1])],
    );
    assert_eq!(rt; said, [Said::Refused(16, 1, 0), Said::Refused(16, 3, 0)]);
    let four = Places::new(&[0, 1, 9, 9]);
    let said = claims(&mut checker, 4, [four, none, five]);
    assert_eq!(rt;
        said,
        [
            Said::Refused(16, 4, 0),
            Said::Refused(16, 0, 0),
            Said::Refused(16, 5, 0),
        ]
    );
    Ok(())
}

/// `1 v1,2 v1 v2` at the atoms `1 17`, `2 17 18` and `2 18 19`.
#[test]
fn claims_place_by_place(rt: HostRuntime) -> Result<(), Fail> {
    let book = small_book(rt.alloc())?;
    let mut records = [Record::blank(); 4];
    let mut checker = Checker::new(book, FlatShelf::new(&mut records), 7);
    let facts = [one(1, k(17)), two(2, k(17), k(18)), two(2, k(18), k(19))];
    let _ = lodges(&mut checker, facts);
    let past = [Places::new(&[3, 9]), Places::new(&[0, 3])];
    let said = claims(&mut checker, 4, past);
    assert_eq!(rt; said, [Said::Refused(12, 0, 3), Said::Refused(12, 1, 3)]);
    let unfit = [Places::new(&[1, 9]), Places::new(&[0, 0])];
    let said = claims(&mut checker, 4, unfit);
    assert_eq!(rt; said, [Said::Refused(13, 0, 1), Said::Refused(13, 1, 0)]);
    let verdict = Verdict::Entailed {
        query: 4,
        added: 0,
        nulls: 0,
    };
    let said = claims(
        &mut checker,
        4,
        [Places::new(&[0, 2]), Places::new(&[0, 1])],
    );
    assert_eq!(rt; said, [Said::Refused(13, 1, 2), Said::Judged(verdict)]);
    Ok(())
}

/// The constraint `2 v1 v1` at the atoms `2 17 18` and `2 18 18`.
#[test]
fn clashes_in_order(rt: HostRuntime) -> Result<(), Fail> {
    let book = small_book(rt.alloc())?;
    let mut records = [Record::blank(); 4];
    let mut checker = Checker::new(book, FlatShelf::new(&mut records), 7);
    let _ = lodges(&mut checker, [two(2, k(17), k(18)), two(2, k(18), k(18))]);
    let none = Places::new(&[]);
    let said = claims(&mut checker, 1, [(0, none), (2, none), (1, none)]);
    let numbers = [
        Said::Refused(11, 0, 0),
        Said::Refused(11, 2, 0),
        Said::Refused(16, 0, 0),
    ];
    assert_eq!(rt; said, numbers);
    let verdict = Verdict::Inconsistent {
        constraint: 1,
        added: 0,
        nulls: 0,
    };
    let shown = [
        (1, Places::new(&[2])),
        (1, Places::new(&[0])),
        (1, Places::new(&[1])),
    ];
    let said = claims(&mut checker, 1, shown);
    let numbers = [
        Said::Refused(12, 0, 2),
        Said::Refused(13, 0, 0),
        Said::Judged(verdict),
    ];
    assert_eq!(rt; said, numbers);
    Ok(())
}
