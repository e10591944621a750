//! Models: added atoms, and refutations.
use calls::answer::Verdict;
use checker::checker::Checker;
use flat_shelf::flat::FlatShelf;
use shelves::record::Record;
use shelves::stock::Shelf;
use std::test::Fail;
use trials::raw::{k, n, one, two, v};
use trials::runs::{adds, counter, lodges};
use trials::said::{Said, refused, refute, taken};
use trials::small::small_book;

fn not_entailed(query: usize, size: usize) -> Said {
    Said::Judged(Verdict::NotEntailed { query, size })
}

#[test]
fn nothing_refutes_every_query(rt: HostRuntime) -> Result<(), Fail> {
    let book = small_book(rt.alloc())?;
    let mut records: [Record; 0] = [];
    let mut checker = Checker::new(book, FlatShelf::new(&mut records), 7);
    assert_eq!(rt; counter(&mut checker, 1, &[]), not_entailed(1, 0));
    assert_eq!(rt; counter(&mut checker, 2, &[]), not_entailed(2, 0));
    assert_eq!(rt; counter(&mut checker, 3, &[]), not_entailed(3, 0));
    assert_eq!(rt; counter(&mut checker, 4, &[]), not_entailed(4, 0));
    Ok(())
}

#[test]
fn added_atoms(rt: HostRuntime) -> Result<(), Fail> {
    let book = small_book(rt.alloc())?;
    let mut records = [Record::blank()];
    let mut checker = Checker::new(book, FlatShelf::new(&mut records), 7);
    assert_eq!(rt; lodges(&mut checker, [one(1, k(17))]), [Said::At(0)]);
    let said = adds(&mut checker, 1, [two(9, v(0), v(0)), one(2, v(0))]);
    assert_eq!(rt; said, [Said::Refused(3, 0, 9), Said::Refused(4, 0, 1)]);
    let said = adds(&mut checker, 1, [two(2, k(17), v(1)), one(1, n(1000000))]);
    assert_eq!(rt; said, [Said::Refused(5, 0, 1), Said::Refused(5, 0, 0)]);
    let good = || two(2, k(17), n(999999));
    let said = adds(
        &mut checker,
        1,
        [good(), good(), one(1, k(17)), one(1, k(18))],
    );
    assert_eq!(rt;
        said,
        [Said::At(1), Said::Already, Said::Already, Said::At(2)]
    );
    assert_eq!(rt; checker.size(), 1);
    Ok(())
}

/// On the fact `1 17`: a rule, a constraint and the query, in this order.
#[test]
fn refutations_refused(rt: HostRuntime) -> Result<(), Fail> {
    let book = small_book(rt.alloc())?;
    let mut records = [Record::blank()];
    let mut checker = Checker::new(book, FlatShelf::new(&mut records), 7);
    assert_eq!(rt; lodges(&mut checker, [one(1, k(17))]), [Said::At(0)]);
    let rule = counter(&mut checker, 2, &[two(2, k(18), k(18))]);
    assert_eq!(rt; rule, Said::Refused(17, 1, 0));
    let constraint = counter(&mut checker, 2, &[two(2, k(17), k(17))]);
    assert_eq!(rt; constraint, Said::Refused(18, 1, 0));
    let query = counter(&mut checker, 1, &[two(2, k(17), k(18))]);
    assert_eq!(rt; query, Said::Refused(19, 1, 0));
    assert_eq!(rt;
        counter(&mut checker, 3, &[two(2, k(17), k(18))]),
        not_entailed(3, 2)
    );
    assert_eq!(rt;
        counter(&mut checker, 3, &[two(2, k(17), n(5))]),
        not_entailed(3, 2)
    );
    Ok(())
}

/// The lowest rule is named, and for it the lowest place.
#[test]
fn the_lowest_rule_and_place(rt: HostRuntime) -> Result<(), Fail> {
    let book = small_book(rt.alloc())?;
    let mut records = [Record::blank(); 2];
    let mut checker = Checker::new(book, FlatShelf::new(&mut records), 7);
    let _ = lodges(&mut checker, [one(1, k(17)), one(1, k(18))]);
    let first = || two(2, k(17), k(20));
    let second = || two(2, k(18), k(19));
    let side = || one(3, k(18));
    let head = || one(3, k(19));
    assert_eq!(rt;
        counter(&mut checker, 2, &[second(), side()]),
        Said::Refused(17, 1, 0)
    );
    assert_eq!(rt;
        counter(&mut checker, 2, &[first(), side()]),
        Said::Refused(17, 1, 1)
    );
    assert_eq!(rt;
        counter(&mut checker, 2, &[first(), second(), side()]),
        Said::Refused(17, 2, 3)
    );
    assert_eq!(rt;
        counter(&mut checker, 2, &[first(), second(), side(), head()]),
        not_entailed(2, 6)
    );
    Ok(())
}

/// So many atoms `2 17 x` added at the places from 0, then the refutation.
fn many<S: Shelf>(checker: &mut Checker<S>, query: usize, count: u32) -> (usize, Said) {
    match checker.open(query) {
        Err(refusal) => (0, refused(refusal)),
        Ok(slip) => {
            for i in 0..count {
                let _ = checker.add(&slip, &two(2, k(17), n(i)));
            }
            let size = checker.size();
            (size, refute(checker, slip))
        }
    }
}

/// A larger pile is refused for its size, though the query `2 v1 v2` matches too.
#[test]
fn a_pile_of_128(rt: HostRuntime) -> Result<(), Fail> {
    let book = small_book(rt.alloc())?;
    let mut records: [Record; 0] = [];
    let mut checker = Checker::new(book, FlatShelf::new(&mut records), 7);
    assert_eq!(rt; many(&mut checker, 3, 128), (128, not_entailed(3, 128)));
    assert_eq!(rt;
        many(&mut checker, 1, 129),
        (129, Said::Refused(20, 129, 0))
    );
    assert_eq!(rt;
        many(&mut checker, 3, 300),
        (256, Said::Refused(20, 256, 0))
    );
    assert_eq!(rt; checker.size(), 0);
    Ok(())
}

/// 256 atoms added, then a new one, an old one and a fact.
fn fill<S: Shelf>(checker: &mut Checker<S>) -> (usize, [Said; 3]) {
    match checker.open(3) {
        Err(refusal) => (0, [refused(refusal); 3]),
        Ok(slip) => {
            let mut count = 0;
            for i in 0..256 {
                if taken(checker.add(&slip, &two(2, k(17), n(i)))) == Said::At(i as usize + 1) {
                    count = i as usize + 1;
                }
            }
            let new = taken(checker.add(&slip, &two(2, k(17), n(256))));
            let old = taken(checker.add(&slip, &two(2, k(17), n(255))));
            let fact = taken(checker.add(&slip, &one(1, k(17))));
            let _ = checker.strike(slip);
            (count, [new, old, fact])
        }
    }
}

/// The 256th atom is taken, the next new one is refused, and what stands there is already there.
#[test]
fn a_model_adds_256(rt: HostRuntime) -> Result<(), Fail> {
    let book = small_book(rt.alloc())?;
    let mut records = [Record::blank()];
    let mut checker = Checker::new(book, FlatShelf::new(&mut records), 7);
    assert_eq!(rt; lodges(&mut checker, [one(1, k(17))]), [Said::At(0)]);
    let (count, said) = fill(&mut checker);
    assert_eq!(rt; count, 256);
    assert_eq!(rt;
        said,
        [Said::Refused(15, 0, 0), Said::Already, Said::Already]
    );
    assert_eq!(rt; checker.size(), 1);
    Ok(())
}
