//! Derivations: steps and the nulls that they issue.
use calls::answer::Verdict;
use checker::checker::Checker;
use flat_shelf::flat::FlatShelf;
use shelves::record::Record;
use shelves::stock::Shelf;
use std::test::Fail;
use trials::raw::{k, one, two};
use trials::runs::{adds, derive, lodges};
use trials::said::{Said, claim, refused, taken, told};
use trials::small::small_book;

/// A rule used twice at place 0, what the pile has at places 1 and 2 then, and the claim.
#[derive(Clone, Copy)]
struct Twice {
    said: [Said; 2],
    atoms: [(usize, u32, u32); 2],
    claim: Said,
}

fn use_twice<S: Shelf>(
    checker: &mut Checker<S>,
    query: usize,
    rule: usize,
    places: &[usize],
) -> Twice {
    match checker.open(query) {
        Err(refusal) => {
            let said = refused(refusal);
            Twice {
                said: [said; 2],
                atoms: [(0, 0, 0); 2],
                claim: said,
            }
        }
        Ok(slip) => {
            let first = taken(checker.step(&slip, rule, 0));
            let second = taken(checker.step(&slip, rule, 0));
            let atoms = [told(checker.atom_at(1)), told(checker.atom_at(2))];
            let claim = claim(checker, slip, places);
            Twice {
                said: [first, second],
                atoms,
                claim,
            }
        }
    }
}

/// `1 v1;2 v1 v2` used twice at `1 17` gives `2 17 n0` and `2 17 n1`.
#[test]
fn each_use_has_a_new_null(rt: HostRuntime) -> Result<(), Fail> {
    let book = small_book(rt.alloc())?;
    let mut records = [Record::blank(); 4];
    let mut checker = Checker::new(book, FlatShelf::new(&mut records), 7);
    assert_eq!(rt; lodges(&mut checker, [one(1, k(17))]), [Said::At(0)]);
    let done = use_twice(&mut checker, 1, 1, &[2]);
    assert_eq!(rt; done.said, [Said::At(1), Said::At(2)]);
    assert_eq!(rt; done.atoms, [(2, 17, 1000000), (2, 17, 1000001)]);
    let verdict = Verdict::Entailed {
        query: 1,
        added: 2,
        nulls: 2,
    };
    assert_eq!(rt; done.claim, Said::Judged(verdict));
    Ok(())
}

/// `1 v1;2 v3 v2`: v3 stands first and gets the first null.
#[test]
fn nulls_in_the_order_of_the_head(rt: HostRuntime) -> Result<(), Fail> {
    let book = small_book(rt.alloc())?;
    let mut records = [Record::blank(); 4];
    let mut checker = Checker::new(book, FlatShelf::new(&mut records), 7);
    assert_eq!(rt; lodges(&mut checker, [one(1, k(17))]), [Said::At(0)]);
    let done = use_twice(&mut checker, 1, 3, &[1]);
    assert_eq!(rt; done.said, [Said::At(1), Said::At(2)]);
    assert_eq!(rt; done.atoms, [(2, 1000000, 1000001), (2, 1000002, 1000003)]);
    let verdict = Verdict::Entailed {
        query: 1,
        added: 2,
        nulls: 4,
    };
    assert_eq!(rt; done.claim, Said::Judged(verdict));
    Ok(())
}

/// The second check begins with null 0 and without what the first one added.
#[test]
fn each_check_begins_anew(rt: HostRuntime) -> Result<(), Fail> {
    let book = small_book(rt.alloc())?;
    let mut records = [Record::blank(); 4];
    let mut checker = Checker::new(book, FlatShelf::new(&mut records), 7);
    assert_eq!(rt; lodges(&mut checker, [one(1, k(17))]), [Said::At(0)]);
    let first = use_twice(&mut checker, 1, 3, &[1]);
    assert_eq!(rt; checker.size(), 1);
    let second = use_twice(&mut checker, 1, 3, &[1]);
    assert_eq!(rt; checker.size(), 1);
    assert_eq!(rt;
        second.atoms,
        [(2, 1000000, 1000001), (2, 1000002, 1000003)]
    );
    assert_eq!(rt; second.claim, first.claim);
    Ok(())
}

/// `2 v1 v1` does not fit `2 17 n0`.
#[test]
fn a_null_is_no_constant(rt: HostRuntime) -> Result<(), Fail> {
    let book = small_book(rt.alloc())?;
    let mut records = [Record::blank(); 4];
    let mut checker = Checker::new(book, FlatShelf::new(&mut records), 7);
    assert_eq!(rt; lodges(&mut checker, [one(1, k(17))]), [Said::At(0)]);
    assert_eq!(rt;
        derive(&mut checker, 2, &[(1, 0)], &[1]),
        Said::Refused(13, 0, 1)
    );
    Ok(())
}

/// Rule, place, guard and side atoms are looked at in this order.
#[test]
fn steps_refused(rt: HostRuntime) -> Result<(), Fail> {
    let book = small_book(rt.alloc())?;
    let mut records = [Record::blank(); 4];
    let mut checker = Checker::new(book, FlatShelf::new(&mut records), 7);
    assert_eq!(rt; lodges(&mut checker, [one(1, k(17))]), [Said::At(0)]);
    let said = adds(&mut checker, 1, [(0, 0), (4, 9), (2, 9), (2, 0)]);
    let numbers = [
        Said::Refused(11, 0, 0),
        Said::Refused(11, 4, 0),
        Said::Refused(12, 0, 9),
        Said::Refused(13, 0, 0),
    ];
    assert_eq!(rt; said, numbers);
    let said = adds(&mut checker, 1, [(1, 0), (2, 1), (2, 2), (1, 1)]);
    let numbers = [
        Said::At(1),
        Said::Refused(14, 1, 0),
        Said::Refused(12, 0, 2),
        Said::Refused(13, 0, 1),
    ];
    assert_eq!(rt; said, numbers);
    assert_eq!(rt; checker.size(), 1);
    Ok(())
}

/// A head that stands there is already there, and issues no null.
#[test]
fn a_head_that_stands_there(rt: HostRuntime) -> Result<(), Fail> {
    let book = small_book(rt.alloc())?;
    let mut records = [Record::blank(); 4];
    let mut checker = Checker::new(book, FlatShelf::new(&mut records), 7);
    let _ = lodges(&mut checker, [two(2, k(17), k(18)), one(3, k(17))]);
    let said = adds(&mut checker, 3, [(2, 0), (2, 0)]);
    assert_eq!(rt; said, [Said::At(2), Said::Already]);
    let verdict = Verdict::Entailed {
        query: 3,
        added: 1,
        nulls: 0,
    };
    assert_eq!(rt;
        derive(&mut checker, 3, &[(2, 0), (2, 0)], &[2]),
        Said::Judged(verdict)
    );
    Ok(())
}

/// The rule used over and over, then another one: how many were taken, and the last two answers.
fn use_often<S: Shelf>(
    checker: &mut Checker<S>,
    often: (usize, usize),
    other: (usize, usize),
) -> (usize, Said, Said) {
    match checker.open(1) {
        Err(refusal) => (0, refused(refusal), refused(refusal)),
        Ok(slip) => {
            let mut count = 0;
            for i in 0..256 {
                if taken(checker.step(&slip, often.0, often.1)) == Said::At(i + 4) {
                    count = i + 1;
                }
            }
            let last = taken(checker.step(&slip, often.0, often.1));
            let after = taken(checker.step(&slip, other.0, other.1));
            let _ = checker.strike(slip);
            (count, last, after)
        }
    }
}

/// The 256th atom is taken, the next is refused, and one that stands there is already there.
#[test]
fn a_derivation_adds_256(rt: HostRuntime) -> Result<(), Fail> {
    let book = small_book(rt.alloc())?;
    let mut records = [Record::blank(); 4];
    let mut checker = Checker::new(book, FlatShelf::new(&mut records), 7);
    let facts = [
        one(1, k(17)),
        two(2, k(17), k(18)),
        one(3, k(17)),
        one(3, k(18)),
    ];
    let _ = lodges(&mut checker, facts);
    let (count, last, after) = use_often(&mut checker, (1, 0), (2, 1));
    assert_eq!(rt; count, 256);
    assert_eq!(rt; last, Said::Refused(15, 0, 0));
    assert_eq!(rt; after, Said::Already);
    assert_eq!(rt; checker.size(), 4);
    Ok(())
}
