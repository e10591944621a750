//! Tests of fitting one pattern to one atom.
use crate::made::{Unfit, atom, c, pattern, v};
use fitting::binding::unbound;
use fitting::fit::fit;
use fitting::instance::bound_atom;
use fitting::trial::head_fits;
use std::test::Fail;

/// `2 v1 v1` fits `2 17 17`, and not `2 17 18`.
#[test]
fn one_variable_twice(rt: HostRuntime) -> Result<(), Fail> {
    let twice = pattern(2, &[v(1), v(1)])?;
    let same = atom(2, &[c(17), c(17)])?;
    let other = atom(2, &[c(17), c(18)])?;
    assert!(rt; fit(unbound(), &twice, &same).is_some());
    assert!(rt; fit(unbound(), &twice, &other).is_none());
    Ok(())
}

/// Predicate, number of terms and constants have to agree.
#[test]
fn what_does_not_agree(rt: HostRuntime) -> Result<(), Fail> {
    let given = pattern(2, &[c(17), v(8)])?;
    assert!(rt; fit(unbound(), &given, &atom(2, &[c(17), c(5)])?).is_some());
    assert!(rt; fit(unbound(), &given, &atom(3, &[c(17), c(5)])?).is_none());
    assert!(rt; fit(unbound(), &given, &atom(2, &[c(17)])?).is_none());
    assert!(rt; fit(unbound(), &given, &atom(2, &[c(18), c(5)])?).is_none());
    Ok(())
}

/// A fitted pattern, so bound, is the atom; a pattern with an unbound variable is none.
#[test]
fn bound_and_unbound(rt: HostRuntime) -> Result<(), Fail> {
    let given = pattern(2, &[v(1), v(2)])?;
    let there = atom(2, &[c(17), c(18)])?;
    let binding = fit(unbound(), &given, &there).ok_or(Unfit)?;
    assert!(rt; bound_atom(binding, &given).ok_or(Unfit)? == there);
    assert!(rt;
        bound_atom(binding, &pattern(2, &[v(2), v(1)])?).ok_or(Unfit)? == atom(2, &[c(18), c(17)])?
    );
    assert!(rt; bound_atom(binding, &pattern(1, &[v(3)])?).is_none());
    Ok(())
}

/// A head that fits and one that does not both leave the existential variable unbound.
#[test]
fn head_tried(rt: HostRuntime) -> Result<(), Fail> {
    let mut binding = fit(unbound(), &pattern(1, &[v(1)])?, &atom(1, &[c(17)])?).ok_or(Unfit)?;
    let head = pattern(2, &[v(1), v(2)])?;
    assert!(rt; head_fits(&head, &atom(2, &[c(17), c(5)])?, &mut binding));
    assert!(rt; !head_fits(&head, &atom(2, &[c(18), c(5)])?, &mut binding));
    assert!(rt; bound_atom(binding, &pattern(1, &[v(2)])?).is_none());
    assert!(rt; bound_atom(binding, &pattern(1, &[v(1)])?).ok_or(Unfit)? == atom(1, &[c(17)])?);
    Ok(())
}
