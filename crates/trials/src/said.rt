//! What a checker answers, so that it can be compared, and slips spent.
use atoms::atom::GroundAtom;
use calls::answer::Verdict;
use calls::candidate::Candidate;
use calls::places::Places;
use checker::checker::Checker;
use checker::kind::Kind;
use checker::slip::{DerivationSlip, ModelSlip, Returned, Slip};
use refusals::refusal::Refusal;
use shelves::stock::Shelf;
use shelves::taken::Taken;
use terms::term::Term;

/// The property that every atom has.
pub struct Anything;

impl Candidate for Anything {
    ghost has = { λ _. Unit {0} };
}

#[derive(Clone, Copy, PartialEq, Eq, Debug)]
pub enum Said {
    At(usize),
    Already,
    Judged(Verdict),
    Struck,
    /// Its number and both figures.
    Refused(u8, usize, usize),
}

pub fn refused(refusal: Refusal) -> Said {
    let (first, second) = refusal.figures();
    Said::Refused(refusal.number(), first, second)
}

pub fn taken(answer: Result<Taken, Refusal>) -> Said {
    match answer {
        Ok(Taken::At(place)) => Said::At(place),
        Ok(Taken::Already) => Said::Already,
        Err(refusal) => refused(refusal),
    }
}

pub fn struck(answer: Result<(), Refusal>) -> Said {
    match answer {
        Ok(()) => Said::Struck,
        Err(refusal) => refused(refusal),
    }
}

/// The verdict; the check is given up where it was refused.
fn judged<K: Kind, S: Shelf>(
    checker: &mut Checker<S>,
    answer: Result<Verdict, Returned<Slip<K>>>,
) -> Said {
    match answer {
        Ok(verdict) => Said::Judged(verdict),
        Err(Returned { refusal, slip }) => {
            let _ = checker.strike(slip);
            refused(refusal)
        }
    }
}

/// Claims, and gives the check up where that is refused.
pub fn claim<S: Shelf>(checker: &mut Checker<S>, slip: DerivationSlip, places: &[usize]) -> Said {
    let answer = checker.claim::<Anything>(slip, Places::new(places));
    judged(checker, answer)
}

/// Claims a clash, and gives the check up where that is refused.
pub fn clash<S: Shelf>(
    checker: &mut Checker<S>,
    slip: DerivationSlip,
    constraint: usize,
    places: &[usize],
) -> Said {
    let answer = checker.clash::<Anything>(slip, constraint, Places::new(places));
    judged(checker, answer)
}

/// Refutes, and gives the check up where that is refused.
pub fn refute<S: Shelf>(checker: &mut Checker<S>, slip: ModelSlip) -> Said {
    let answer = checker.refute::<Anything>(slip);
    judged(checker, answer)
}

/// The predicate and the first two terms as whole numbers, 0 where there is none.
pub fn told(atom: Option<GroundAtom>) -> (usize, u32, u32) {
    match atom {
        None => (0, 0, 0),
        Some(atom) => (
            atom.predicate.number(),
            thing(atom.terms.get(0)),
            thing(atom.terms.get(1)),
        ),
    }
}

fn thing(term: Option<Term>) -> u32 {
    match term {
        None => 0,
        Some(Term::Constant(constant)) => constant.number(),
        Some(Term::Null(null)) => 1000000 + null.number(),
    }
}
