//! Atoms as a caller writes them, unchecked.
ghost use Rattle.std.specs.Prelude.{◌≡◌, ◌≤◌, [], length, IfSome, MatchOption, min, take};

use short_rows::first_four::FirstFour;
use short_rows::row::Row;

/// A term of any sort, with any number.
#[derive(Clone, Copy, PartialEq, Eq, Debug)]
pub enum RawTerm {
    Constant(u32),
    Null(u32),
    Variable(u32),
}

/// An atom with any predicate number and any number of terms, none included.
#[derive(Clone, Copy, Debug)]
pub struct RawAtom {
    predicate: usize,
    terms: FirstFour<RawTerm>,
}

impl RawAtom {
    pub fn new(predicate: usize, terms: &[RawTerm]) -> RawAtom
        ensures predicate { result.predicate ≡ predicate }
        ensures count { result.terms.count ≡ length terms.now }
        ensures first { result.terms.first ≡ take 4 terms.now }
    {
        RawAtom {
            predicate,
            terms: FirstFour::new(terms),
        }
    }

    /// The predicate's number, as written.
    pub fn predicate(&self) -> usize
        ensures { result ≡ self.now.predicate }
    {
        self.predicate
    }

    /// How many terms were written.
    pub fn count(&self) -> usize
        ensures { result ≡ self.now.terms.count }
    {
        self.terms.count()
    }

    /// The first four of them, or nothing where there are none.
    pub fn first(&self) -> Option<Row<RawTerm>>
        ensures row { MatchOption result (self.now.terms.first ≡ []) (λ row. row ≡ self.now.terms.first) }
        ensures some { IfSome result (λ row. 1 ≤ length row) }
        ensures kept { length self.now.terms.first ≡ min self.now.terms.count 4 }
    {
        self.terms.first()
    }
}
