//! Queries that follow from the database with Ada as a manager.
use crate::tests::{ADA, database, personnel};
use calls::answer::Verdict;
use checker::checker::Checker;
use flat_shelf::flat::FlatShelf;
use shelves::record::Record;
use std::test::Fail;
use trials::raw::one;
use trials::runs::{derive, lodges};
use trials::said::Said;

fn entailed(query: usize, added: usize, nulls: u32) -> Said {
    Said::Judged(Verdict::Entailed {
        query,
        added,
        nulls,
    })
}

/// Jo is an employee: by the fact, and also with the step from `2 11`, which gives nothing new.
#[test]
fn jo_is_an_employee(rt: HostRuntime) -> Result<(), Fail> {
    let book = personnel(rt.alloc())?;
    let mut records = [Record::blank(); 8];
    let mut checker = Checker::new(book, FlatShelf::new(&mut records), 1);
    let _ = lodges(&mut checker, database());
    assert_eq!(rt; lodges(&mut checker, [one(2, ADA)]), [Said::At(7)]);
    assert_eq!(rt; derive(&mut checker, 2, &[], &[0]), entailed(2, 0, 0));
    assert_eq!(rt; derive(&mut checker, 2, &[(1, 1)], &[0]), entailed(2, 0, 0));
    assert_eq!(rt;
        derive(&mut checker, 2, &[(1, 1)], &[4]),
        Said::Refused(13, 0, 4)
    );
    Ok(())
}

/// Ada directs something, by rule 2 at place 7; a claim of finance finds no place.
#[test]
fn ada_directs_something(rt: HostRuntime) -> Result<(), Fail> {
    let book = personnel(rt.alloc())?;
    let mut records = [Record::blank(); 8];
    let mut checker = Checker::new(book, FlatShelf::new(&mut records), 1);
    let _ = lodges(&mut checker, database());
    assert_eq!(rt; lodges(&mut checker, [one(2, ADA)]), [Said::At(7)]);
    assert_eq!(rt; derive(&mut checker, 4, &[(2, 7)], &[8]), entailed(4, 1, 1));
    assert_eq!(rt;
        derive(&mut checker, 3, &[(2, 7)], &[8]),
        Said::Refused(13, 0, 8)
    );
    assert_eq!(rt; derive(&mut checker, 4, &[], &[8]), Said::Refused(12, 0, 8));
    Ok(())
}

/// Query 1 has two patterns, each at its place.
#[test]
fn some_manager_directs_finance(rt: HostRuntime) -> Result<(), Fail> {
    let book = personnel(rt.alloc())?;
    let mut records = [Record::blank(); 8];
    let mut checker = Checker::new(book, FlatShelf::new(&mut records), 1);
    let _ = lodges(&mut checker, database());
    assert_eq!(rt; derive(&mut checker, 1, &[], &[1, 2]), entailed(1, 0, 0));
    assert_eq!(rt;
        derive(&mut checker, 1, &[], &[1, 3]),
        Said::Refused(13, 1, 3)
    );
    assert_eq!(rt;
        derive(&mut checker, 1, &[], &[2, 1]),
        Said::Refused(13, 0, 2)
    );
    Ok(())
}
