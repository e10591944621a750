//! Tests of the flat shelf.
use crate::made::{Missing, atom, fill};
use flat_shelf::flat::FlatShelf;
use shelves::record::Record;
use shelves::stock::{Shelf, Stock};
use shelves::taken::{Full, Taken};
use std::test::Fail;

#[test]
fn no_records(rt: HostRuntime) -> Result<(), Fail> {
    let a = atom(7)?;
    let mut records: [Record; 0] = [];
    let mut shelf = FlatShelf::new(&mut records);
    assert_eq!(rt; shelf.free_count(), 0);
    assert_eq!(rt; shelf.put(a), Err(Full));
    assert_eq!(rt; shelf.len(), 0);
    assert!(rt; !shelf.contains(&a));
    assert!(rt; shelf.get(0).is_none());
    Ok(())
}

#[test]
fn one_record(rt: HostRuntime) -> Result<(), Fail> {
    let a = atom(7)?;
    let mut records = [Record::blank()];
    let mut shelf = FlatShelf::new(&mut records);
    assert_eq!(rt; shelf.len(), 0);
    assert_eq!(rt; shelf.free_count(), 1);
    assert_eq!(rt; shelf.put(atom(7)?), Ok(Taken::At(0)));
    assert_eq!(rt; shelf.free_count(), 0);
    assert_eq!(rt; shelf.put(atom(8)?), Err(Full));
    assert_eq!(rt; shelf.put(atom(7)?), Ok(Taken::Already));
    assert!(rt; shelf.get(0).ok_or(Missing)? == a);
    assert!(rt; shelf.get(1).is_none());
    let records: &[Record] = shelf.into_records();
    assert!(rt; records.len() == 1);
    assert!(rt; records[0].atom == a);
    Ok(())
}

/// What a blank record holds counts only where it was put.
#[test]
fn blank_is_no_atom(rt: HostRuntime) -> Result<(), Fail> {
    let a = atom(1)?;
    let mut records = [Record::blank(); 2];
    let mut shelf = FlatShelf::new(&mut records);
    assert!(rt; !shelf.contains(&a));
    assert_eq!(rt; shelf.put(a), Ok(Taken::At(0)));
    assert!(rt; shelf.contains(&a));
    Ok(())
}

#[test]
fn all_4096_records(rt: HostRuntime) -> Result<(), Fail> {
    let mut records = vec![in rt.alloc(); Record::blank(); 4096]?;
    let mut shelf = FlatShelf::new(&mut records);
    assert_eq!(rt; shelf.free_count(), 4096);
    fill(&rt, &mut shelf, 4096)?;
    assert_eq!(rt; shelf.free_count(), 0);
    assert_eq!(rt; shelf.put(atom(4097)?), Err(Full));
    assert_eq!(rt; shelf.put(atom(4096)?), Ok(Taken::Already));
    Ok(())
}

/// Of 5,000 records 4,096 are used.
#[test]
fn more_than_4096_records(rt: HostRuntime) -> Result<(), Fail> {
    let mut records = vec![in rt.alloc(); Record::blank(); 5000]?;
    let mut shelf = FlatShelf::new(&mut records);
    assert_eq!(rt; shelf.free_count(), 4096);
    fill(&rt, &mut shelf, 4096)?;
    assert_eq!(rt; shelf.len(), 4096);
    assert_eq!(rt; shelf.free_count(), 0);
    assert_eq!(rt; shelf.put(atom(4097)?), Err(Full));
    assert_eq!(rt; shelf.put(atom(1)?), Ok(Taken::Already));
    Ok(())
}
