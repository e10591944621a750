//! A predicate with its terms.
use short_rows::row::Row;
use terms::constant::Constant;
use terms::pattern_term::PatternTerm;
use terms::predicate::Predicate;
use terms::term::Term;

/// A predicate with one to four terms of one kind. In a comparison the predicates come first, since they differ most often.
#[derive(Clone, Copy, PartialEq, Eq, Debug)]
pub struct Atom<T> {
    pub predicate: Predicate,
    pub terms: Row<T>,
}

/// An atom whose terms are constants and nulls.
pub type GroundAtom = Atom<Term>;

/// A ground atom with constants only.
pub type Fact = Atom<Constant>;

/// An atom whose terms are constants and variables.
pub type Pattern = Atom<PatternTerm>;
