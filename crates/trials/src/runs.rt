//! Whole checks: each opens, makes the calls that are named, and spends its slip.
use crate::said::{Anything, Said, claim, refused, refute, struck, taken};
use calls::answer::Verdict;
use calls::places::Places;
use checker::checker::Checker;
use checker::kind::{Derivation, Kind, Model};
use checker::slip::{DerivationSlip, ModelSlip, Returned, Slip};
use reading::raw::RawAtom;
use shelves::stock::Shelf;

/// A call that may be made again and again under one slip.
pub trait Addition: Copy {
    type Check: Kind;

    fn make<S: Shelf>(self, checker: &mut Checker<S>, slip: &Slip<Self::Check>) -> Said;
}

/// A step: rule and place.
impl Addition for (usize, usize) {
    type Check = Derivation;

    fn make<S: Shelf>(self, checker: &mut Checker<S>, slip: &DerivationSlip) -> Said {
        taken(checker.step(slip, self.0, self.1))
    }
}

impl Addition for RawAtom {
    type Check = Model;

    fn make<S: Shelf>(self, checker: &mut Checker<S>, slip: &ModelSlip) -> Said {
        taken(checker.add(slip, &self))
    }
}

/// Steps or atoms, one after the other; then the check is given up.
pub fn adds<A: Addition, S: Shelf, const N: usize>(
    checker: &mut Checker<S>,
    query: usize,
    additions: [A; N],
) -> [Said; N] {
    match checker.open(query) {
        Err(refusal) => [refused(refusal); N],
        Ok(slip) => {
            let mut said = [Said::Struck; N];
            for (said, addition) in said.iter_mut().zip(&additions) {
                *said = addition.make(checker, &slip);
            }
            let _ = checker.strike(slip);
            said
        }
    }
}

/// The rules at their places, and the claim.
pub fn derive<S: Shelf>(
    checker: &mut Checker<S>,
    query: usize,
    uses: &[(usize, usize)],
    places: &[usize],
) -> Said {
    match checker.open(query) {
        Err(refusal) => refused(refusal),
        Ok(slip) => {
            for (rule, place) in uses {
                let _ = checker.step(&slip, *rule, *place);
            }
            claim(checker, slip, places)
        }
    }
}

/// The atoms added, and the refutation.
pub fn counter<S: Shelf>(checker: &mut Checker<S>, query: usize, atoms: &[RawAtom]) -> Said {
    match checker.open(query) {
        Err(refusal) => refused(refusal),
        Ok(slip) => {
            for atom in atoms {
                let _ = checker.add(&slip, atom);
            }
            refute(checker, slip)
        }
    }
}

/// What is claimed: the query at these places, or a constraint.
pub trait Claim: Copy {
    fn make<S: Shelf>(
        self,
        checker: &mut Checker<S>,
        slip: DerivationSlip,
    ) -> Result<Verdict, Returned<DerivationSlip>>;
}

impl Claim for Places {
    fn make<S: Shelf>(
        self,
        checker: &mut Checker<S>,
        slip: DerivationSlip,
    ) -> Result<Verdict, Returned<DerivationSlip>> {
        checker.claim::<Anything>(slip, self)
    }
}

impl Claim for (usize, Places) {
    fn make<S: Shelf>(
        self,
        checker: &mut Checker<S>,
        slip: DerivationSlip,
    ) -> Result<Verdict, Returned<DerivationSlip>> {
        checker.clash::<Anything>(slip, self.0, self.1)
    }
}

/// Claims under one slip, each after the one before it was refused.
pub fn claims<C: Claim, S: Shelf, const N: usize>(
    checker: &mut Checker<S>,
    query: usize,
    claims: [C; N],
) -> [Said; N] {
    let mut held = match checker.open(query) {
        Err(refusal) => return [refused(refusal); N],
        Ok(slip) => slip,
    };
    let mut answers = [Said::Struck; N];
    for (said, claim) in answers.iter_mut().zip(&claims) {
        match claim.make(checker, held) {
            Ok(verdict) => {
                *said = Said::Judged(verdict);
                return answers;
            }
            Err(Returned { refusal, slip }) => {
                *said = refused(refusal);
                held = slip;
            }
        }
    }
    let _ = checker.strike(held);
    answers
}

/// The facts lodged one after the other.
pub fn lodges<S: Shelf, const N: usize>(
    checker: &mut Checker<S>,
    facts: [RawAtom; N],
) -> [Said; N] {
    let mut said = [Said::Struck; N];
    for (said, fact) in said.iter_mut().zip(&facts) {
        *said = taken(checker.lodge(fact));
    }
    said
}

/// A check of the query, opened and given up at once.
fn open<K: Kind, S: Shelf>(checker: &mut Checker<S>, query: usize) -> Said {
    match checker.open::<K>(query) {
        Err(refusal) => refused(refusal),
        Ok(slip) => struck(checker.strike(slip)),
    }
}

/// A derivation and a model of the query, each opened and given up at once.
pub fn opens<S: Shelf>(checker: &mut Checker<S>, query: usize) -> [Said; 2] {
    [
        open::<Derivation, S>(checker, query),
        open::<Model, S>(checker, query),
    ]
}
