//! The same checks on every shelf.
use calls::answer::Verdict;
use checker::checker::Checker;
use flat_shelf::flat::FlatShelf;
use overlays::overlay::Overlay;
use shelves::record::Record;
use shelves::stock::{Shelf, Stock};
use std::alloc::Global;
use std::test::Fail;
use trials::raw::{k, one, two};
use trials::runs::{counter, derive, lodges};
use trials::said::Said;
use trials::small::small_book;

/// Facts lodged, a derivation and a refutation, and how many atoms the shelf has at the end.
fn all_checks<S: Shelf + Drop>(heap: Global, shelf: S) -> Result<([Said; 5], usize), Fail> {
    let mut checker = Checker::new(small_book(heap)?, shelf, 7);
    let facts = [one(1, k(17)), two(2, k(17), k(18)), one(1, k(17))];
    let [first, second, third] = lodges(&mut checker, facts);
    let derived = derive(&mut checker, 1, &[(1, 0)], &[2]);
    let refuted = counter(&mut checker, 3, &[two(2, k(18), k(19))]);
    let said = [first, second, third, derived, refuted];
    match checker.end() {
        Ok((_, shelf)) => Ok((said, shelf.len())),
        Err(_) => Err(Fail::new("a check is open")),
    }
}

/// What is answered on every shelf.
fn expected() -> ([Said; 5], usize) {
    let entailed = Verdict::Entailed {
        query: 1,
        added: 1,
        nulls: 1,
    };
    let refuted = Verdict::NotEntailed { query: 3, size: 3 };
    let said = [
        Said::At(0),
        Said::At(1),
        Said::Already,
        Said::Judged(entailed),
        Said::Judged(refuted),
    ];
    (said, 2)
}

#[test]
fn on_a_flat_shelf(rt: HostRuntime) -> Result<(), Fail> {
    let mut records = [Record::blank(); 4];
    assert_eq!(rt;
        all_checks(rt.alloc(), FlatShelf::new(&mut records))?,
        expected()
    );
    Ok(())
}

#[test]
fn on_a_lent_shelf(rt: HostRuntime) -> Result<(), Fail> {
    let mut records = [Record::blank(); 4];
    let mut flat = FlatShelf::new(&mut records);
    assert_eq!(rt; all_checks(rt.alloc(), &mut flat)?, expected());
    assert_eq!(rt; flat.len(), 2);
    Ok(())
}

#[test]
fn on_an_overlay(rt: HostRuntime) -> Result<(), Fail> {
    let mut records = [Record::blank(); 4];
    let mut flat = FlatShelf::new(&mut records);
    assert_eq!(rt;
        all_checks(rt.alloc(), Overlay::new(&mut flat))?,
        expected()
    );
    assert_eq!(rt; flat.len(), 0);
    Ok(())
}

#[test]
fn on_overlays_piled(rt: HostRuntime) -> Result<(), Fail> {
    let mut records = [Record::blank(); 4];
    let mut flat = FlatShelf::new(&mut records);
    let mut lower = Overlay::new(&mut flat);
    assert_eq!(rt;
        all_checks(rt.alloc(), Overlay::new(&mut lower))?,
        expected()
    );
    assert_eq!(rt; all_checks(rt.alloc(), &mut lower)?, expected());
    assert_eq!(rt; lower.own_len(), 2);
    Ok(())
}

#[test]
fn on_an_overlay_by_value(rt: HostRuntime) -> Result<(), Fail> {
    let mut records = [Record::blank(); 4];
    let overlay = Overlay::new(FlatShelf::new(&mut records));
    assert_eq!(rt; all_checks(rt.alloc(), overlay)?, expected());
    Ok(())
}
