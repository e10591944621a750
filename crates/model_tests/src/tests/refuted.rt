//! Models of the database, and what they refute.
use crate::tests::{ADA, BILL, FINANCE, JO, TOM, TOYS, database, personnel, six_facts};
use calls::answer::Verdict;
use checker::checker::Checker;
use flat_shelf::flat::FlatShelf;
use shelves::record::Record;
use std::test::Fail;
use trials::raw::{one, three, two};
use trials::runs::{counter, lodges};
use trials::said::Said;

fn not_entailed(query: usize, size: usize) -> Said {
    Said::Judged(Verdict::NotEntailed { query, size })
}

/// The database is a model as it stands; the queries that match in it are not refuted.
#[test]
fn the_database_is_a_model(rt: HostRuntime) -> Result<(), Fail> {
    let book = personnel(rt.alloc())?;
    let mut records = [Record::blank(); 7];
    let mut checker = Checker::new(book, FlatShelf::new(&mut records), 1);
    let _ = lodges(&mut checker, database());
    assert_eq!(rt; counter(&mut checker, 3, &[]), not_entailed(3, 7));
    assert_eq!(rt; counter(&mut checker, 4, &[]), not_entailed(4, 7));
    assert_eq!(rt; counter(&mut checker, 1, &[]), Said::Refused(19, 1, 0));
    assert_eq!(rt; counter(&mut checker, 2, &[]), Said::Refused(19, 2, 0));
    Ok(())
}

/// Without the atom of predicate 6 sentence c fails where Jo directs finance; the atom can be added.
#[test]
fn the_split_head_is_needed(rt: HostRuntime) -> Result<(), Fail> {
    let book = personnel(rt.alloc())?;
    let mut records = [Record::blank(); 6];
    let mut checker = Checker::new(book, FlatShelf::new(&mut records), 1);
    let _ = lodges(&mut checker, six_facts());
    assert_eq!(rt; counter(&mut checker, 3, &[]), Said::Refused(17, 3, 2));
    assert_eq!(rt;
        counter(&mut checker, 3, &[three(6, JO, FINANCE, ADA)]),
        not_entailed(3, 7)
    );
    Ok(())
}

/// A manager who directs nothing: rule 2 at the place of `2 12`.
#[test]
fn no_model_where_ada_directs_nothing(rt: HostRuntime) -> Result<(), Fail> {
    let book = personnel(rt.alloc())?;
    let mut records = [Record::blank(); 7];
    let mut checker = Checker::new(book, FlatShelf::new(&mut records), 1);
    let _ = lodges(&mut checker, database());
    assert_eq!(rt;
        counter(&mut checker, 3, &[one(2, ADA)]),
        Said::Refused(17, 2, 7)
    );
    assert_eq!(rt;
        counter(&mut checker, 3, &[one(1, BILL), one(2, ADA)]),
        Said::Refused(17, 2, 8)
    );
    assert_eq!(rt; checker.size(), 7);
    Ok(())
}

/// Ada directs finance and supervises herself, who works there.
#[test]
fn ada_supervises_herself(rt: HostRuntime) -> Result<(), Fail> {
    let book = personnel(rt.alloc())?;
    let mut records = [Record::blank(); 7];
    let mut checker = Checker::new(book, FlatShelf::new(&mut records), 1);
    let _ = lodges(&mut checker, database());
    let atoms = [
        one(2, ADA),
        two(3, ADA, FINANCE),
        two(4, ADA, ADA),
        three(6, ADA, FINANCE, ADA),
    ];
    assert_eq!(rt; counter(&mut checker, 5, &atoms), not_entailed(5, 11));
    assert_eq!(rt; counter(&mut checker, 3, &atoms), Said::Refused(19, 3, 0));
    Ok(())
}

/// Ada directs finance and supervises Bill, who works there.
#[test]
fn ada_supervises_bill(rt: HostRuntime) -> Result<(), Fail> {
    let book = personnel(rt.alloc())?;
    let mut records = [Record::blank(); 7];
    let mut checker = Checker::new(book, FlatShelf::new(&mut records), 1);
    let _ = lodges(&mut checker, database());
    let atoms = [
        one(2, ADA),
        two(3, ADA, FINANCE),
        two(4, ADA, BILL),
        two(5, BILL, FINANCE),
        three(6, ADA, FINANCE, BILL),
    ];
    assert_eq!(rt; counter(&mut checker, 5, &atoms), not_entailed(5, 12));
    assert_eq!(rt; counter(&mut checker, 4, &atoms), Said::Refused(19, 4, 0));
    Ok(())
}

/// Ada directs toys and supervises Bill, who works there: so that she directs finance does not follow.
#[test]
fn ada_directs_toys(rt: HostRuntime) -> Result<(), Fail> {
    let book = personnel(rt.alloc())?;
    let mut records = [Record::blank(); 8];
    let mut checker = Checker::new(book, FlatShelf::new(&mut records), 1);
    let _ = lodges(&mut checker, database());
    assert_eq!(rt; lodges(&mut checker, [one(2, ADA)]), [Said::At(7)]);
    let atoms = [
        two(3, ADA, TOYS),
        two(4, ADA, BILL),
        two(5, BILL, TOYS),
        three(6, ADA, TOYS, BILL),
    ];
    assert_eq!(rt; counter(&mut checker, 3, &atoms), not_entailed(3, 12));
    assert_eq!(rt; counter(&mut checker, 5, &atoms), Said::Refused(19, 5, 0));
    Ok(())
}

/// Ada directs toys and supervises Tom, who works nowhere: rule 3 at `3 12 22`, or rule 6 at `6 12 22 14`.
#[test]
fn tom_works_nowhere(rt: HostRuntime) -> Result<(), Fail> {
    let book = personnel(rt.alloc())?;
    let mut records = [Record::blank(); 8];
    let mut checker = Checker::new(book, FlatShelf::new(&mut records), 1);
    let _ = lodges(&mut checker, database());
    assert_eq!(rt; lodges(&mut checker, [one(2, ADA)]), [Said::At(7)]);
    let directs = || two(3, ADA, TOYS);
    let supervises = || two(4, ADA, TOM);
    let leads = || three(6, ADA, TOYS, TOM);
    assert_eq!(rt;
        counter(&mut checker, 3, &[directs(), supervises()]),
        Said::Refused(17, 3, 8)
    );
    assert_eq!(rt;
        counter(&mut checker, 3, &[directs(), supervises(), leads()]),
        Said::Refused(17, 6, 10)
    );
    assert_eq!(rt;
        counter(
            &mut checker,
            3,
            &[directs(), supervises(), leads(), two(5, TOM, TOYS)],
        ),
        not_entailed(3, 12)
    );
    Ok(())
}
