//! Checking an atom as a caller writes it.
ghost use Rattle.declarations.specs.Arities.{arities_of};
ghost use Rattle.declarations.specs.Checked.{Checked};

use crate::declarations::Declarations;
use atoms::atom::Atom;
use reading::raw::RawAtom;
use reading::sort::{Sort, read_row};
use refusals::refusal::Refusal;
use terms::predicate::Predicate;

impl Declarations {
    /// The atom that is written, whose index among the atoms of a call is `index`.
    pub fn check<T: Sort>(&self, index: usize, raw: &RawAtom) -> Result<Atom<T>, Refusal>
        ensures { Checked T.Sort.written (arities_of self.now) index raw.now result }
    {
        let number = raw.predicate();
        let count = raw.count();
        let undeclared = Refusal::UndeclaredPredicate {
            atom: index,
            predicate: number,
        };
        let wrong_number = Refusal::WrongNumberOfTerms {
            atom: index,
            terms: count,
        };
        let arity = self.arity(number).ok_or(undeclared)?;
        let predicate = Predicate::new(number).ok_or(undeclared)?;
        if arity.number() != count {
            return Err(wrong_number);
        }
        // No arity is 0, so there are terms.
        let row = raw.first().ok_or(wrong_number)?;
        match read_row::<T>(row) {
            Ok(terms) => Ok(Atom { predicate, terms }),
            Err(term) => Err(Refusal::TermNotAllowed { atom: index, term }),
        }
    }
}
