//! What is refused, with both figures.
use crate::tests::{answer, c, one, start, two, v};
use reading::raw::{RawAtom, RawTerm};
use std::test::Fail;

#[test]
fn arities(rt: HostRuntime) -> Result<(), Fail> {
    let mut draft = start(&rt, rt.alloc())?;
    assert_eq!(rt; answer(draft.declare(0)), (1, 0, 0));
    assert_eq!(rt; answer(draft.declare(5)), (1, 5, 0));
    assert_eq!(rt; answer(draft.declare(4)), (0, 4, 0));
    let book = draft.seal();
    let Some(last) = book.arity(4) else {
        return Err(Fail::new("predicate 4 is not declared"));
    };
    assert_eq!(rt; last.number(), 4);
    assert!(rt; book.arity(5).is_none());
    assert!(rt; book.arity(0).is_none());
    Ok(())
}

#[test]
fn predicates(rt: HostRuntime) -> Result<(), Fail> {
    let mut draft = start(&rt, rt.alloc())?;
    let good = || one(1, v(1));
    assert_eq!(rt; answer(draft.query(&[good(), one(9, v(1))])), (3, 1, 9));
    assert_eq!(rt; answer(draft.query(&[one(0, v(1))])), (3, 0, 0));
    assert_eq!(rt; answer(draft.query(&[one(65, v(9))])), (3, 0, 65));
    assert_eq!(rt;
        answer(draft.rule(&[good(), good()], &one(4, v(1)))),
        (3, 2, 4)
    );
    let book = draft.seal();
    assert_eq!(rt; book.rules() + book.constraints() + book.queries(), 0);
    Ok(())
}

#[test]
fn numbers_of_terms(rt: HostRuntime) -> Result<(), Fail> {
    let mut draft = start(&rt, rt.alloc())?;
    let good = || one(1, v(1));
    let five = [v(1), v(1), v(1), v(1), v(1)];
    assert_eq!(rt;
        answer(draft.constraint(&[good(), one(2, v(1))])),
        (4, 1, 1)
    );
    assert_eq!(rt;
        answer(draft.constraint(&[RawAtom::new(1, &[])])),
        (4, 0, 0)
    );
    assert_eq!(rt;
        answer(draft.constraint(&[RawAtom::new(2, &five)])),
        (4, 0, 5)
    );
    assert_eq!(rt; answer(draft.constraint(&[two(1, v(9), c(0))])), (4, 0, 2));
    assert_eq!(rt; answer(draft.rule(&[good()], &one(2, v(9)))), (4, 1, 1));
    let book = draft.seal();
    assert_eq!(rt; book.rules() + book.constraints() + book.queries(), 0);
    Ok(())
}

#[test]
fn terms_out_of_range(rt: HostRuntime) -> Result<(), Fail> {
    let mut draft = start(&rt, rt.alloc())?;
    let good = || one(1, v(1));
    assert_eq!(rt;
        answer(draft.query(&[two(2, v(1), RawTerm::Null(3))])),
        (5, 0, 1)
    );
    assert_eq!(rt; answer(draft.query(&[good(), one(1, v(9))])), (5, 1, 0));
    assert_eq!(rt; answer(draft.query(&[one(1, v(0))])), (5, 0, 0));
    assert_eq!(rt; answer(draft.query(&[two(2, c(0), c(1000000))])), (5, 0, 0));
    assert_eq!(rt;
        answer(draft.query(&[two(2, c(999999), c(1000000))])),
        (5, 0, 1)
    );
    assert_eq!(rt;
        answer(draft.rule(&[good(), good()], &one(1, v(9)))),
        (5, 2, 0)
    );
    let book = draft.seal();
    assert_eq!(rt; book.rules() + book.constraints() + book.queries(), 0);
    Ok(())
}

#[test]
fn numbers_of_patterns(rt: HostRuntime) -> Result<(), Fail> {
    let mut draft = start(&rt, rt.alloc())?;
    let good = one(1, v(1));
    let bad = one(9, v(9));
    assert_eq!(rt; answer(draft.rule(&[], &bad)), (7, 0, 0));
    assert_eq!(rt;
        answer(draft.rule(&[bad, bad, bad, bad, bad], &bad)),
        (7, 5, 0)
    );
    assert_eq!(rt; answer(draft.constraint(&[])), (7, 0, 0));
    assert_eq!(rt;
        answer(draft.query(&[good, good, good, good, good])),
        (7, 5, 0)
    );
    assert_eq!(rt; answer(draft.rule(&[good], &good)), (0, 1, 0));
    assert_eq!(rt;
        answer(draft.rule(&[good, good, good, good], &good)),
        (0, 2, 0)
    );
    assert_eq!(rt;
        answer(draft.constraint(&[good, good, good, good])),
        (0, 1, 0)
    );
    assert_eq!(rt; answer(draft.query(&[good])), (0, 1, 0));
    let book = draft.seal();
    assert_eq!(rt;
        (book.rules(), book.constraints(), book.queries()),
        (2, 1, 1)
    );
    Ok(())
}
