//! Tests of finding matches, and of fitting at named places.
use crate::made::{Unfit, atom, c, figures, pattern, v};
use fitting::instance::bound_atom;
use flat_shelf::flat::FlatShelf;
use matching::find::find_match;
use matching::places::fit_places;
use shelves::record::Record;
use shelves::stock::Shelf;
use shelves::taken::Taken;
use std::test::Fail;

/// The second pattern sends it back over the first, and the first match is the one by place.
#[test]
fn goes_back(rt: HostRuntime) -> Result<(), Fail> {
    let mut records = [Record::blank(); 4];
    let mut shelf = FlatShelf::new(&mut records);
    assert_eq!(rt; shelf.put(atom(1, &[c(17)])?), Ok(Taken::At(0)));
    assert_eq!(rt; shelf.put(atom(1, &[c(18)])?), Ok(Taken::At(1)));
    assert_eq!(rt; shelf.put(atom(2, &[c(18), c(9)])?), Ok(Taken::At(2)));
    assert_eq!(rt; shelf.put(atom(2, &[c(18), c(8)])?), Ok(Taken::At(3)));
    let patterns = [pattern(1, &[v(1)])?, pattern(2, &[v(1), v(2)])?];
    let binding = find_match(&shelf, &patterns).ok_or(Unfit)?;
    assert!(rt; bound_atom(binding, &patterns[1]).ok_or(Unfit)? == atom(2, &[c(18), c(9)])?);
    assert!(rt; find_match(&shelf, &[patterns[1], pattern(3, &[v(2)])?]).is_none());
    assert!(rt; find_match(&shelf, &[]).is_some());
    Ok(())
}

/// Four patterns that share no variable, over 128 atoms: one atom for each is enough to see that the last has none.
#[test]
fn does_not_go_back_for_nothing(rt: HostRuntime) -> Result<(), Fail> {
    let mut records = [Record::blank(); 128];
    let mut shelf = FlatShelf::new(&mut records);
    for i in 0..128u32 {
        assert_eq!(rt; shelf.put(atom(1, &[c(i + 1)])?), Ok(Taken::At(i as usize)));
    }
    let patterns = [
        pattern(1, &[v(1)])?,
        pattern(1, &[v(2)])?,
        pattern(1, &[v(3)])?,
        pattern(1, &[c(999)])?,
    ];
    assert!(rt; find_match(&shelf, &patterns).is_none());
    Ok(())
}

#[test]
fn named_places(rt: HostRuntime) -> Result<(), Fail> {
    let mut records = [Record::blank(); 3];
    let mut shelf = FlatShelf::new(&mut records);
    assert_eq!(rt; shelf.put(atom(1, &[c(17)])?), Ok(Taken::At(0)));
    assert_eq!(rt; shelf.put(atom(2, &[c(17), c(9)])?), Ok(Taken::At(1)));
    assert_eq!(rt; shelf.put(atom(2, &[c(18), c(9)])?), Ok(Taken::At(2)));
    let patterns = [pattern(1, &[v(1)])?, pattern(2, &[v(1), v(2)])?];
    let Ok(binding) = fit_places(&shelf, &patterns, &[0, 1]) else {
        return Err(Fail::new("they fit there"));
    };
    assert!(rt; bound_atom(binding, &patterns[1]).ok_or(Unfit)? == atom(2, &[c(17), c(9)])?);
    let Err(uneven) = fit_places(&shelf, &patterns, &[0, 1, 1]) else {
        return Err(Fail::new("three places for two patterns"));
    };
    assert_eq!(rt; figures(uneven), (16, 3, 0));
    let Err(past) = fit_places(&shelf, &patterns, &[0, 3]) else {
        return Err(Fail::new("no atom is at place 3"));
    };
    assert_eq!(rt; figures(past), (12, 1, 3));
    let Err(unfit) = fit_places(&shelf, &patterns, &[0, 2]) else {
        return Err(Fail::new("v1 is 17 by then"));
    };
    assert_eq!(rt; figures(unfit), (13, 1, 2));
    Ok(())
}
