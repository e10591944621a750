//! The worked example: six facts, and `2 12` at place 6.
use crate::tests::{ADA, BILL, FINANCE, JO, TOM, TOYS, personnel, six_facts};
use calls::answer::Verdict;
use checker::checker::Checker;
use flat_shelf::flat::FlatShelf;
use shelves::record::Record;
use shelves::stock::Shelf;
use std::test::Fail;
use trials::raw::{one, three, two};
use trials::runs::{adds, counter, derive, lodges};
use trials::said::{Said, told};

/// The five steps from `2 12`, and the atoms that they add.
fn added<S: Shelf>(checker: &mut Checker<S>) -> [(usize, u32, u32); 4] {
    match checker.open(4) {
        Err(_) => [(0, 0, 0); 4],
        Ok(slip) => {
            for (rule, place) in [(2, 6), (3, 7), (4, 8), (5, 8), (6, 8)] {
                let _ = checker.step(&slip, rule, place);
            }
            let atoms = [
                told(checker.atom_at(7)),
                told(checker.atom_at(8)),
                told(checker.atom_at(9)),
                told(checker.atom_at(10)),
            ];
            let _ = checker.strike(slip);
            atoms
        }
    }
}

#[test]
fn steps_from_ada(rt: HostRuntime) -> Result<(), Fail> {
    let book = personnel(rt.alloc())?;
    let mut records = [Record::blank(); 7];
    let mut checker = Checker::new(book, FlatShelf::new(&mut records), 1);
    let _ = lodges(&mut checker, six_facts());
    assert_eq!(rt; lodges(&mut checker, [one(2, ADA)]), [Said::At(6)]);
    let uses = [(2, 6), (3, 7), (4, 8), (5, 8), (6, 8), (3, 3)];
    let said = [
        Said::At(7),
        Said::At(8),
        Said::Already,
        Said::At(9),
        Said::At(10),
        Said::Refused(13, 0, 3),
    ];
    assert_eq!(rt; adds(&mut checker, 4, uses), said);
    let atoms = [
        (3, 12, 1000000),
        (6, 12, 1000000),
        (4, 12, 1000001),
        (5, 1000001, 1000000),
    ];
    assert_eq!(rt; added(&mut checker), atoms);
    let verdict = Verdict::Entailed {
        query: 4,
        added: 1,
        nulls: 1,
    };
    assert_eq!(rt;
        derive(&mut checker, 4, &[(2, 6)], &[7]),
        Said::Judged(verdict)
    );
    Ok(())
}

/// Rule 7 at `4 11 12`, without `2 12` and with it.
#[test]
fn who_supervises_a_manager(rt: HostRuntime) -> Result<(), Fail> {
    let book = personnel(rt.alloc())?;
    let mut records = [Record::blank(); 7];
    let mut checker = Checker::new(book, FlatShelf::new(&mut records), 1);
    let _ = lodges(&mut checker, six_facts());
    assert_eq!(rt;
        adds(&mut checker, 1, [(7, 3), (7, 0)]),
        [Said::Refused(14, 2, 0), Said::Refused(13, 0, 0)]
    );
    assert_eq!(rt; lodges(&mut checker, [one(2, ADA)]), [Said::At(6)]);
    assert_eq!(rt; adds(&mut checker, 1, [(7, 3)]), [Said::Already]);
    assert_eq!(rt; checker.size(), 7);
    Ok(())
}

/// A model in which Ada directs toys, atom by atom.
#[test]
fn a_model_atom_by_atom(rt: HostRuntime) -> Result<(), Fail> {
    let book = personnel(rt.alloc())?;
    let mut records = [Record::blank(); 7];
    let mut checker = Checker::new(book, FlatShelf::new(&mut records), 1);
    let _ = lodges(&mut checker, six_facts());
    assert_eq!(rt; lodges(&mut checker, [one(2, ADA)]), [Said::At(6)]);
    let atoms = || [
        two(3, ADA, TOYS),
        two(4, ADA, BILL),
        two(5, BILL, TOYS),
        three(6, JO, FINANCE, ADA),
        three(6, ADA, TOYS, BILL),
    ];
    let said = [
        Said::At(7),
        Said::At(8),
        Said::At(9),
        Said::At(10),
        Said::At(11),
    ];
    assert_eq!(rt; adds(&mut checker, 3, atoms()), said);
    let all = atoms();
    let atoms = &all[..];
    assert_eq!(rt;
        counter(&mut checker, 3, &atoms[0..3]),
        Said::Refused(17, 3, 2)
    );
    assert_eq!(rt;
        counter(&mut checker, 3, &atoms[0..4]),
        Said::Refused(17, 3, 7)
    );
    let verdict = Verdict::NotEntailed { query: 3, size: 12 };
    assert_eq!(rt; counter(&mut checker, 3, atoms), Said::Judged(verdict));
    Ok(())
}

/// Lists of atoms that are no model.
#[test]
fn no_models(rt: HostRuntime) -> Result<(), Fail> {
    let book = personnel(rt.alloc())?;
    let mut records = [Record::blank(); 7];
    let mut checker = Checker::new(book, FlatShelf::new(&mut records), 1);
    let _ = lodges(&mut checker, six_facts());
    assert_eq!(rt; lodges(&mut checker, [one(2, ADA)]), [Said::At(6)]);
    let leads = || three(6, JO, FINANCE, ADA);
    let said = counter(&mut checker, 3, &[]);
    assert_eq!(rt; said, Said::Refused(17, 2, 6));
    let said = counter(&mut checker, 3, &[leads()]);
    assert_eq!(rt; said, Said::Refused(17, 2, 6));
    let said = counter(
        &mut checker,
        3,
        &[two(3, ADA, TOYS), two(4, ADA, TOM), leads()],
    );
    assert_eq!(rt; said, Said::Refused(17, 3, 7));
    Ok(())
}
