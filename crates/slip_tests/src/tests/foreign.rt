//! Slips that another checker handed out.
use calls::answer::{Check, Verdict};
use calls::places::Places;
use checker::checker::Checker;
use checker::kind::{Derivation, Kind, Model};
use checker::slip::Returned;
use flat_shelf::flat::FlatShelf;
use shelves::record::Record;
use shelves::stock::Shelf;
use std::alloc::Global;
use std::test::Fail;
use trials::raw::{k, n, one};
use trials::runs::lodges;
use trials::said::{Anything, Said, claim, refused, struck, taken};
use trials::small::small_book;

/// Step, clash, claim and strike at a checker, under a slip of another, each with other mistakes besides.
fn derive_under<S: Shelf, T: Shelf>(at: &mut Checker<S>, from: &mut Checker<T>) -> [Said; 4] {
    match from.open(1) {
        Err(refusal) => [refused(refusal); 4],
        Ok(slip) => {
            let step = taken(at.step(&slip, 9, 9));
            let (clash, slip) = match at.clash::<Anything>(slip, 9, Places::new(&[])) {
                Ok(verdict) => return [Said::Judged(verdict); 4],
                Err(Returned { refusal, slip }) => (refused(refusal), slip),
            };
            let (claim, slip) = match at.claim::<Anything>(slip, Places::new(&[])) {
                Ok(verdict) => return [Said::Judged(verdict); 4],
                Err(Returned { refusal, slip }) => (refused(refusal), slip),
            };
            [step, clash, claim, struck(at.strike(slip))]
        }
    }
}

/// Add, refute and strike at a checker, under a slip of another.
fn refute_under<S: Shelf, T: Shelf>(at: &mut Checker<S>, from: &mut Checker<T>) -> [Said; 3] {
    match from.open(1) {
        Err(refusal) => [refused(refusal); 3],
        Ok(slip) => {
            let add = taken(at.add(&slip, &one(9, n(0))));
            match at.refute::<Anything>(slip) {
                Ok(verdict) => [Said::Judged(verdict); 3],
                Err(Returned { refusal, slip }) => {
                    [add, refused(refusal), struck(at.strike(slip))]
                }
            }
        }
    }
}

/// What was answered at a checker of number 7 with an open check: under slips of two other checkers, for a derivation
/// and for a model; then what is open there, and the right slip struck.
type Beside = ([Said; 4], [Said; 3], Option<Check>, Said);

/// Both while a check of the kind is open; then what is open, and the right slip struck.
fn under_both<K: Kind, S: Shelf, T: Shelf, U: Shelf>(
    at: &mut Checker<S>,
    from: &mut Checker<T>,
    other: &mut Checker<U>,
) -> Beside {
    match at.open::<K>(2) {
        Err(refusal) => (
            [refused(refusal); 4],
            [Said::Already; 3],
            None,
            Said::Already,
        ),
        Ok(slip) => {
            let derived = derive_under(at, from);
            let added = refute_under(at, other);
            let check = at.check();
            (derived, added, check, struck(at.strike(slip)))
        }
    }
}

/// No check is open, so that a slip of the same number is foreign too.
#[test]
fn where_none_is_open(rt: HostRuntime) -> Result<(), Fail> {
    let mut records: [Record; 0] = [];
    let mut at = Checker::new(small_book(rt.alloc())?, FlatShelf::new(&mut records), 7);
    let mut records: [Record; 0] = [];
    let mut from = Checker::new(small_book(rt.alloc())?, FlatShelf::new(&mut records), 7);
    let mut records: [Record; 0] = [];
    let mut other = Checker::new(small_book(rt.alloc())?, FlatShelf::new(&mut records), 7);
    assert_eq!(rt;
        derive_under(&mut at, &mut from),
        [Said::Refused(22, 0, 0); 4]
    );
    assert_eq!(rt;
        refute_under(&mut at, &mut other),
        [Said::Refused(22, 0, 0); 3]
    );
    assert_eq!(rt; at.check(), None);
    assert_eq!(rt; from.check(), Some(Check::Derivation(1)));
    assert_eq!(rt; other.check(), Some(Check::Model(1)));
    Ok(())
}

/// Two checkers of these numbers beside one of number 7 with a check of the kind.
fn beside<K: Kind>(heap: Global, numbers: (u16, u16)) -> Result<Beside, Fail> {
    let mut records: [Record; 0] = [];
    let mut at = Checker::new(small_book(heap)?, FlatShelf::new(&mut records), 7);
    let mut records: [Record; 0] = [];
    let mut from = Checker::new(small_book(heap)?, FlatShelf::new(&mut records), numbers.0);
    let mut records: [Record; 0] = [];
    let mut other = Checker::new(small_book(heap)?, FlatShelf::new(&mut records), numbers.1);
    Ok(under_both::<K, FlatShelf<'_>, FlatShelf<'_>, FlatShelf<'_>>(&mut at, &mut from, &mut other))
}

/// Slips of another number, while a derivation is open: it stays open.
#[test]
fn other_numbers_beside_a_derivation(rt: HostRuntime) -> Result<(), Fail> {
    let (derived, added, check, strike) = beside::<Derivation>(rt.alloc(), (8, 65535))?;
    assert_eq!(rt; derived, [Said::Refused(22, 0, 0); 4]);
    assert_eq!(rt; added, [Said::Refused(22, 0, 0); 3]);
    assert_eq!(rt; check, Some(Check::Derivation(2)));
    assert_eq!(rt; strike, Said::Struck);
    Ok(())
}

/// Slips of another number, while a model is open: it stays open.
#[test]
fn other_numbers_beside_a_model(rt: HostRuntime) -> Result<(), Fail> {
    let (derived, added, check, strike) = beside::<Model>(rt.alloc(), (8, 0))?;
    assert_eq!(rt; derived, [Said::Refused(22, 0, 0); 4]);
    assert_eq!(rt; added, [Said::Refused(22, 0, 0); 3]);
    assert_eq!(rt; check, Some(Check::Model(2)));
    assert_eq!(rt; strike, Said::Struck);
    Ok(())
}

/// A slip of the other kind is foreign, and one of the same number and kind is not: it gives the check up.
#[test]
fn same_number_beside_a_derivation(rt: HostRuntime) -> Result<(), Fail> {
    let (derived, added, check, strike) = beside::<Derivation>(rt.alloc(), (7, 7))?;
    let numbers = [
        Said::Refused(11, 9, 0),
        Said::Refused(11, 9, 0),
        Said::Refused(16, 0, 0),
        Said::Struck,
    ];
    assert_eq!(rt; derived, numbers);
    assert_eq!(rt; added, [Said::Refused(22, 0, 0); 3]);
    assert_eq!(rt; check, None);
    assert_eq!(rt; strike, Said::Refused(22, 0, 0));
    Ok(())
}

/// The same for a model, which an empty pile refutes at once.
#[test]
fn same_number_beside_a_model(rt: HostRuntime) -> Result<(), Fail> {
    let (derived, added, check, strike) = beside::<Model>(rt.alloc(), (7, 7))?;
    assert_eq!(rt; derived, [Said::Refused(22, 0, 0); 4]);
    let verdict = Verdict::NotEntailed { query: 2, size: 0 };
    assert_eq!(rt; added, [Said::Judged(verdict); 3]);
    assert_eq!(rt; check, None);
    assert_eq!(rt; strike, Said::Refused(22, 0, 0));
    Ok(())
}

/// A whole derivation under the slip of another checker; then the right slip struck.
fn derive_by_other<S: Shelf, T: Shelf>(at: &mut Checker<S>, from: &mut Checker<T>) -> [Said; 3] {
    match at.open::<Derivation>(1) {
        Err(refusal) => [refused(refusal); 3],
        Ok(slip) => match from.open(3) {
            Err(refusal) => [refused(refusal), Said::Already, struck(at.strike(slip))],
            Ok(foreign) => {
                let step = taken(at.step(&foreign, 1, 0));
                let claimed = claim(at, foreign, &[1]);
                [step, claimed, struck(at.strike(slip))]
            }
        },
    }
}

/// The verdict is of the query that this checker has open.
#[test]
fn another_slip_of_the_same_number(rt: HostRuntime) -> Result<(), Fail> {
    let mut records = [Record::blank()];
    let mut at = Checker::new(small_book(rt.alloc())?, FlatShelf::new(&mut records), 7);
    let mut records: [Record; 0] = [];
    let mut from = Checker::new(small_book(rt.alloc())?, FlatShelf::new(&mut records), 7);
    assert_eq!(rt; lodges(&mut at, [one(1, k(17))]), [Said::At(0)]);
    let verdict = Verdict::Entailed {
        query: 1,
        added: 1,
        nulls: 1,
    };
    assert_eq!(rt;
        derive_by_other(&mut at, &mut from),
        [Said::At(1), Said::Judged(verdict), Said::Refused(22, 0, 0)]
    );
    assert_eq!(rt; from.check(), Some(Check::Derivation(3)));
    Ok(())
}
