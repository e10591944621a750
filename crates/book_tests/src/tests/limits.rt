//! The sizes of the tables.
use crate::tests::{answer, one, start, v};
use book::draft::Draft;
use std::test::Fail;

#[test]
fn predicates_run_out(rt: HostRuntime) -> Result<(), Fail> {
    let mut draft = Draft::new(rt.alloc())?;
    for _ in 0..64 {
        let _ = draft.declare(3);
    }
    assert_eq!(rt; answer(draft.declare(1)), (2, 0, 0));
    assert_eq!(rt; answer(draft.declare(9)), (2, 0, 0));
    let book = draft.seal();
    assert!(rt; book.arity(64).is_some());
    assert!(rt; book.arity(65).is_none());
    Ok(())
}

#[test]
fn rules_run_out(rt: HostRuntime) -> Result<(), Fail> {
    let mut draft = start(&rt, rt.alloc())?;
    let good = one(1, v(1));
    for _ in 0..64 {
        let _ = draft.rule(&[good], &good);
    }
    assert_eq!(rt; answer(draft.rule(&[good], &good)), (8, 0, 0));
    assert_eq!(rt; answer(draft.rule(&[], &good)), (8, 0, 0));
    let book = draft.seal();
    assert_eq!(rt; book.rules(), 64);
    assert!(rt; book.rule(64).is_some());
    assert!(rt; book.rule(65).is_none());
    assert!(rt; book.rule(0).is_none());
    Ok(())
}

#[test]
fn constraints_run_out(rt: HostRuntime) -> Result<(), Fail> {
    let mut draft = start(&rt, rt.alloc())?;
    let good = || one(1, v(1));
    for _ in 0..32 {
        let _ = draft.constraint(&[good()]);
    }
    assert_eq!(rt; answer(draft.constraint(&[good()])), (8, 0, 0));
    let book = draft.seal();
    assert_eq!(rt; book.constraints(), 32);
    assert!(rt; book.constraint(32).is_some());
    assert!(rt; book.constraint(33).is_none());
    Ok(())
}

#[test]
fn queries_run_out(rt: HostRuntime) -> Result<(), Fail> {
    let mut draft = start(&rt, rt.alloc())?;
    let good = || one(1, v(1));
    for _ in 0..16 {
        let _ = draft.query(&[good()]);
    }
    assert_eq!(rt; answer(draft.query(&[one(9, v(9))])), (8, 0, 0));
    let book = draft.seal();
    assert_eq!(rt; book.queries(), 16);
    assert!(rt; book.query(16).is_some());
    assert!(rt; book.query(17).is_none());
    Ok(())
}
