//! Rules and their guards.
use crate::tests::{answer, c, one, start, two, v};
use std::test::Fail;

#[test]
fn guard_has_every_variable(rt: HostRuntime) -> Result<(), Fail> {
    let mut draft = start(&rt, rt.alloc())?;
    let body = [one(1, v(1)), two(2, v(1), v(2)), one(3, v(2))];
    assert_eq!(rt; answer(draft.rule(&body, &two(2, v(2), v(3)))), (0, 1, 0));
    let book = draft.seal();
    let rule = book.rule(1).ok_or("there is no rule 1")?;
    assert_eq!(rt; rule.guard(), 1);
    assert_eq!(rt; rule.guard_pattern().predicate.number(), 2);
    assert_eq!(rt; rule.body().len(), 3);
    assert_eq!(rt; rule.head().terms.len(), 2);
    Ok(())
}

#[test]
fn body_without_guard(rt: HostRuntime) -> Result<(), Fail> {
    let mut draft = start(&rt, rt.alloc())?;
    let body = [two(2, v(1), v(2)), two(2, v(2), v(3))];
    assert_eq!(rt; answer(draft.rule(&body, &two(2, v(1), v(3)))), (6, 0, 0));
    assert_eq!(rt; draft.seal().rules(), 0);
    Ok(())
}

#[test]
fn leftmost_guard_without_variables(rt: HostRuntime) -> Result<(), Fail> {
    let mut draft = start(&rt, rt.alloc())?;
    assert_eq!(rt;
        answer(draft.rule(&[one(1, c(17))], &one(1, c(18)))),
        (0, 1, 0)
    );
    let book = draft.seal();
    let rule = book.rule(1).ok_or("there is no rule 1")?;
    assert_eq!(rt; rule.guard(), 0);
    Ok(())
}
