//! Tests of the overlay.
use crate::made::{Missing, atom, fill};
use flat_shelf::flat::FlatShelf;
use overlays::overlay::{NotLowered, Overlay};
use piles::uses::ensure;
use shelves::record::Record;
use shelves::stock::{Shelf, Stock};
use shelves::taken::{Full, Taken};
use std::test::Fail;

#[test]
fn takes_256_of_its_own(rt: HostRuntime) -> Result<(), Fail> {
    let mut records: [Record; 0] = [];
    let mut overlay = Overlay::new(FlatShelf::new(&mut records));
    assert_eq!(rt; overlay.free_count(), 256);
    fill(&rt, &mut overlay, 255)?;
    assert_eq!(rt; overlay.put(atom(256)?), Ok(Taken::At(255)));
    assert_eq!(rt; overlay.free_count(), 0);
    assert_eq!(rt; overlay.put(atom(257)?), Err(Full));
    assert_eq!(rt; overlay.put(atom(256)?), Ok(Taken::Already));
    assert_eq!(rt; overlay.own_len(), 256);
    Ok(())
}

#[test]
fn asks_below_and_puts_nothing_there(rt: HostRuntime) -> Result<(), Fail> {
    let a = atom(7)?;
    let b = atom(8)?;
    let mut records = [Record::blank(); 4];
    let mut flat = FlatShelf::new(&mut records);
    assert_eq!(rt; flat.put(a), Ok(Taken::At(0)));
    let mut overlay = Overlay::new(flat);
    assert_eq!(rt; overlay.put(a), Ok(Taken::Already));
    assert_eq!(rt; overlay.put(b), Ok(Taken::At(1)));
    assert_eq!(rt; overlay.own_len(), 1);
    assert_eq!(rt; overlay.len(), 2);
    assert!(rt; overlay.get(0).ok_or(Missing)? == a);
    assert!(rt; overlay.get(1).ok_or(Missing)? == b);
    assert!(rt; overlay.get(2).is_none());
    assert!(rt; !overlay.below().contains(&b));
    let flat = overlay.release();
    assert_eq!(rt; flat.len(), 1);
    assert_eq!(rt; flat.free_count(), 3);
    Ok(())
}

#[test]
fn clears_its_own(rt: HostRuntime) -> Result<(), Fail> {
    let a = atom(7)?;
    let b = atom(8)?;
    let mut records = [Record::blank(); 4];
    let mut flat = FlatShelf::new(&mut records);
    assert_eq!(rt; flat.put(a), Ok(Taken::At(0)));
    let mut overlay = Overlay::new(flat);
    assert_eq!(rt; overlay.put(b), Ok(Taken::At(1)));
    overlay.clear();
    assert_eq!(rt; overlay.own_len(), 0);
    assert!(rt; overlay.contains(&a));
    assert!(rt; !overlay.contains(&b));
    assert_eq!(rt; overlay.free_count(), 256);
    assert_eq!(rt; overlay.put(b), Ok(Taken::At(1)));
    Ok(())
}

#[test]
fn puts_below_while_empty(rt: HostRuntime) -> Result<(), Fail> {
    let a = atom(7)?;
    let b = atom(8)?;
    let c = atom(9)?;
    let mut records = [Record::blank(); 2];
    let mut overlay = Overlay::new(FlatShelf::new(&mut records));
    assert_eq!(rt; overlay.put_below(a)?, Taken::At(0));
    assert_eq!(rt; overlay.put(b), Ok(Taken::At(1)));
    assert_eq!(rt; overlay.put_below(b), Err(NotLowered::NotEmpty { own: 1 }));
    overlay.clear();
    assert_eq!(rt; overlay.put_below(b)?, Taken::At(1));
    assert_eq!(rt; overlay.put_below(c), Err(NotLowered::Full));
    assert_eq!(rt; overlay.put_below(a)?, Taken::Already);
    assert_eq!(rt; overlay.own_len(), 0);
    assert_eq!(rt; overlay.put(c), Ok(Taken::At(2)));
    Ok(())
}

#[test]
fn pile_of_two(rt: HostRuntime) -> Result<(), Fail> {
    let a = atom(7)?;
    let b = atom(8)?;
    let c = atom(9)?;
    let mut records = [Record::blank()];
    let mut flat = FlatShelf::new(&mut records);
    assert_eq!(rt; flat.put(a), Ok(Taken::At(0)));
    let mut lower = Overlay::new(flat);
    assert_eq!(rt; lower.put(b), Ok(Taken::At(1)));
    let mut upper = Overlay::new(&mut lower);
    assert_eq!(rt; upper.put(a), Ok(Taken::Already));
    assert_eq!(rt; upper.put(b), Ok(Taken::Already));
    assert!(rt; ensure(&mut upper, c));
    assert_eq!(rt; upper.len(), 3);
    assert_eq!(rt; upper.own_len(), 1);
    upper.clear();
    assert_eq!(rt; upper.put_below(c)?, Taken::At(2));
    assert_eq!(rt; upper.own_len(), 0);
    assert_eq!(rt; lower.own_len(), 2);
    Ok(())
}
