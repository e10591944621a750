//! A small book. Its rules are `1 v1;2 v1 v2`, `2 v1 v2,3 v1;3 v2` and `1 v1;2 v3 v2`, its constraint is `2 v1 v1`, and
//! its queries are `2 v1 v2`, `2 v1 v1`, `3 v1` and `1 v1,2 v1 v2`.
use crate::raw::{one, two, v};
use book::book::Book;
use book::draft::Draft;
use reading::raw::RawAtom;
use refusals::refusal::Refusal;
use std::alloc::Global;
use std::test::Fail;

pub fn small_book(heap: Global) -> Result<Book, Fail> {
    let mut draft = Draft::new(heap)?;
    for arity in [1, 2, 1] {
        draft.declare(arity)?;
    }
    write_rules(&mut draft)?;
    write_queries(&mut draft)?;
    Ok(draft.seal())
}

fn write_rules(draft: &mut Draft) -> Result<(), Refusal> {
    draft.rule(&[thing()], &pair())?;
    draft.rule(&[pair(), one(3, v(1))], &one(3, v(2)))?;
    draft.rule(&[thing()], &two(2, v(3), v(2)))?;
    draft.constraint(&[two(2, v(1), v(1))])?;
    Ok(())
}

fn write_queries(draft: &mut Draft) -> Result<(), Refusal> {
    draft.query(&[pair()])?;
    draft.query(&[two(2, v(1), v(1))])?;
    draft.query(&[one(3, v(1))])?;
    draft.query(&[thing(), pair()])?;
    Ok(())
}

fn thing() -> RawAtom {
    one(1, v(1))
}

fn pair() -> RawAtom {
    two(2, v(1), v(2))
}
