//! What a refused call leaves, and the end of a checker.
use calls::answer::Check;
use checker::checker::Checker;
use checker::kind::{Derivation, Kind, Model};
use flat_shelf::flat::FlatShelf;
use shelves::record::Record;
use shelves::stock::{Shelf, Stock};
use std::test::Fail;
use trials::raw::{k, n, one, two};
use trials::runs::lodges;
use trials::said::{Said, claim, refused, refute, struck, taken, told};
use trials::small::small_book;

/// How many atoms the pile has, and what is open.
fn seen<S: Shelf>(checker: &Checker<S>) -> (usize, Option<Check>) {
    (checker.size(), checker.check())
}

/// The end of a checker with an open check, which hands it back: what is open there, the slip struck, and whether it
/// can be ended then. A slip that is left over is spent at another checker.
fn end_while_open<S: Shelf + Drop, T: Shelf>(
    checker: Checker<S>,
    other: &mut Checker<T>,
) -> (Option<Check>, Said, bool) {
    let mut checker = checker;
    match checker.open::<Model>(2) {
        Err(refusal) => (None, refused(refusal), false),
        Ok(slip) => match checker.end() {
            Ok(_) => (None, struck(other.strike(slip)), false),
            Err(back) => {
                let mut back = back;
                let check = back.check();
                let strike = struck(back.strike(slip));
                (check, strike, back.end().is_ok())
            }
        },
    }
}

#[test]
fn no_end_while_a_check_is_open(rt: HostRuntime) -> Result<(), Fail> {
    let mut records = [Record::blank()];
    let checker = Checker::new(small_book(rt.alloc())?, FlatShelf::new(&mut records), 7);
    let mut records: [Record; 0] = [];
    let mut other = Checker::new(small_book(rt.alloc())?, FlatShelf::new(&mut records), 8);
    assert_eq!(rt;
        end_while_open(checker, &mut other),
        (Some(Check::Model(2)), Said::Struck, true)
    );
    Ok(())
}

/// Book and shelf come back, and can be used again.
#[test]
fn the_end(rt: HostRuntime) -> Result<(), Fail> {
    let mut records = [Record::blank(); 2];
    let mut checker = Checker::new(small_book(rt.alloc())?, FlatShelf::new(&mut records), 7);
    assert_eq!(rt; lodges(&mut checker, [one(1, k(17))]), [Said::At(0)]);
    let Ok((book, shelf)) = checker.end() else {
        return Err(Fail::new("no check is open"));
    };
    assert_eq!(rt; (book.rules(), shelf.len(), shelf.free_count()), (3, 1, 1));
    let mut again = Checker::new(book, shelf, 8);
    assert_eq!(rt; seen(&again), (1, None));
    assert_eq!(rt; lodges(&mut again, [one(1, k(17))]), [Said::Already]);
    Ok(())
}

/// The number that a slip of the kind bears, or 0.
fn slip_number<K: Kind, S: Shelf>(checker: &mut Checker<S>) -> u16 {
    match checker.open::<K>(1) {
        Err(_) => 0,
        Ok(slip) => {
            let number = slip.number();
            let _ = checker.strike(slip);
            number
        }
    }
}

/// The numbers that the slips of both kinds bear.
fn slip_numbers<S: Shelf>(checker: &mut Checker<S>) -> [u16; 2] {
    [
        slip_number::<Derivation, S>(checker),
        slip_number::<Model, S>(checker),
    ]
}

#[test]
fn slips_bear_the_number(rt: HostRuntime) -> Result<(), Fail> {
    let mut records: [Record; 0] = [];
    let shelf = FlatShelf::new(&mut records);
    let mut checker = Checker::new(small_book(rt.alloc())?, shelf, 65535);
    assert_eq!(rt; slip_numbers(&mut checker), [65535; 2]);
    Ok(())
}

/// A step, refused ones, a step again: size and check in between, and what the second step added.
fn refused_steps<S: Shelf>(
    checker: &mut Checker<S>,
) -> ([(usize, Option<Check>); 2], (usize, u32, u32), Said) {
    match checker.open(2) {
        Err(refusal) => ([(0, None); 2], (0, 0, 0), refused(refusal)),
        Ok(slip) => {
            let _ = checker.step(&slip, 1, 0);
            let before = seen(checker);
            let _ = checker.step(&slip, 2, 1);
            let _ = checker.step(&slip, 3, 1);
            let after = seen(checker);
            let _ = checker.step(&slip, 1, 0);
            let atom = told(checker.atom_at(2));
            ([before, after], atom, claim(checker, slip, &[2]))
        }
    }
}

/// Refused steps take no null.
#[test]
fn refused_steps_change_nothing(rt: HostRuntime) -> Result<(), Fail> {
    let mut records = [Record::blank()];
    let mut checker = Checker::new(small_book(rt.alloc())?, FlatShelf::new(&mut records), 7);
    assert_eq!(rt; lodges(&mut checker, [one(1, k(17))]), [Said::At(0)]);
    let (both, atom, claimed) = refused_steps(&mut checker);
    assert_eq!(rt; both, [(2, Some(Check::Derivation(2))); 2]);
    assert_eq!(rt; atom, (2, 17, 1000001));
    assert_eq!(rt; claimed, Said::Refused(13, 0, 2));
    assert_eq!(rt; seen(&checker), (1, None));
    Ok(())
}

/// An atom added, one refused, and the pile before and after.
fn refused_adds<S: Shelf>(checker: &mut Checker<S>) -> ([(usize, Option<Check>); 2], Said, Said) {
    match checker.open(1) {
        Err(refusal) => ([(0, None); 2], refused(refusal), Said::Already),
        Ok(slip) => {
            let _ = checker.add(&slip, &two(2, k(17), n(0)));
            let before = seen(checker);
            let _ = checker.add(&slip, &two(9, k(17), n(0)));
            let lodged = taken(checker.lodge(&one(1, k(18))));
            let after = seen(checker);
            ([before, after], lodged, refute(checker, slip))
        }
    }
}

#[test]
fn refused_adds_change_nothing(rt: HostRuntime) -> Result<(), Fail> {
    let mut records = [Record::blank(); 2];
    let mut checker = Checker::new(small_book(rt.alloc())?, FlatShelf::new(&mut records), 7);
    assert_eq!(rt; lodges(&mut checker, [one(1, k(17))]), [Said::At(0)]);
    let (both, lodged, refuted) = refused_adds(&mut checker);
    assert_eq!(rt; both, [(2, Some(Check::Model(1))); 2]);
    assert_eq!(rt; lodged, Said::Refused(9, 0, 0));
    assert_eq!(rt; refuted, Said::Refused(19, 1, 0));
    assert_eq!(rt; seen(&checker), (1, None));
    Ok(())
}
