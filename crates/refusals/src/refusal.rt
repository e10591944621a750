//! Why a call was refused.
ghost use Rattle.refusals.specs.Refusals.{number_of, first_figure, second_figure, refusal_shown};
ghost use Rattle.std.specs.Prelude.{◌≡◌, Some};

use std::error::Error;
use std::fmt;

/// A refusal, with the figures that go with it. Atom indices count from 0, the head last.
#[derive(Clone, Copy, PartialEq, Eq, Debug)]
pub enum Refusal {
    /// The arity is not 1 to 4.
    ArityOutOfRange { arity: usize },
    /// 64 predicates are declared.
    NoPredicateLeft,
    UndeclaredPredicate { atom: usize, predicate: usize },
    /// The number of terms is not the predicate's arity.
    WrongNumberOfTerms { atom: usize, terms: usize },
    /// A term is out of range, or of a sort that may not stand there.
    TermNotAllowed { atom: usize, term: usize },
    /// No body pattern has every variable of the body.
    NoGuard,
    /// There are none or over four patterns, the head aside.
    WrongNumberOfPatterns { patterns: usize },
    /// The table of rules, constraints or queries is full.
    TableFull,
    /// A check is open.
    CheckOpen,
    ShelfFull,
    /// There is no rule, constraint or query of that number.
    NoSuchNumber { number: usize },
    PlacePastPile { pattern: usize, place: usize },
    AtomDoesNotFit { pattern: usize, place: usize },
    /// A body atom other than the guard's does not stand on the pile.
    SideAtomMissing { pattern: usize },
    OverlayFull,
    /// There is not one place for each pattern.
    WrongNumberOfPlaces { places: usize },
    RuleNotSatisfied { rule: usize, place: usize },
    ConstraintMatches { constraint: usize },
    QueryMatches { query: usize },
    /// The pile has over 128 atoms.
    PileTooLarge { size: usize },
    /// A check is already open.
    AlreadyOpen,
    /// The slip bears another number, or no check of its kind is open.
    ForeignSlip,
    /// The atom at that place is no fact of this book, or equals an earlier one.
    UnfitShelf { place: usize },
    /// The bundle's frame is broken.
    BrokenFrame,
    /// The form of a line is broken.
    BrokenLine,
}

impl Refusal {
    /// Its number, from 1 to 25.
    pub fn number(&self) -> u8
        ensures { result ≡ number_of self.now }
    {
        match *self {
            Refusal::ArityOutOfRange { .. } => 1,
            Refusal::NoPredicateLeft => 2,
            Refusal::UndeclaredPredicate { .. } => 3,
            Refusal::WrongNumberOfTerms { .. } => 4,
            Refusal::TermNotAllowed { .. } => 5,
            Refusal::NoGuard => 6,
            Refusal::WrongNumberOfPatterns { .. } => 7,
            Refusal::TableFull => 8,
            Refusal::CheckOpen => 9,
            Refusal::ShelfFull => 10,
            Refusal::NoSuchNumber { .. } => 11,
            Refusal::PlacePastPile { .. } => 12,
            Refusal::AtomDoesNotFit { .. } => 13,
            Refusal::SideAtomMissing { .. } => 14,
            Refusal::OverlayFull => 15,
            Refusal::WrongNumberOfPlaces { .. } => 16,
            Refusal::RuleNotSatisfied { .. } => 17,
            Refusal::ConstraintMatches { .. } => 18,
            Refusal::QueryMatches { .. } => 19,
            Refusal::PileTooLarge { .. } => 20,
            Refusal::AlreadyOpen => 21,
            Refusal::ForeignSlip => 22,
            Refusal::UnfitShelf { .. } => 23,
            Refusal::BrokenFrame => 24,
            Refusal::BrokenLine => 25,
        }
    }

    /// Its two figures, 0 where it has none.
    pub fn figures(&self) -> (usize, usize)
        ensures first { result.0 ≡ first_figure self.now }
        ensures second { result.1 ≡ second_figure self.now }
    {
        match *self {
            Refusal::ArityOutOfRange { arity } => (arity, 0),
            Refusal::UndeclaredPredicate { atom, predicate } => (atom, predicate),
            Refusal::WrongNumberOfTerms { atom, terms } => (atom, terms),
            Refusal::TermNotAllowed { atom, term } => (atom, term),
            Refusal::WrongNumberOfPatterns { patterns } => (patterns, 0),
            Refusal::NoSuchNumber { number } => (number, 0),
            Refusal::PlacePastPile { pattern, place } => (pattern, place),
            Refusal::AtomDoesNotFit { pattern, place } => (pattern, place),
            Refusal::SideAtomMissing { pattern } => (pattern, 0),
            Refusal::WrongNumberOfPlaces { places } => (places, 0),
            Refusal::RuleNotSatisfied { rule, place } => (rule, place),
            Refusal::ConstraintMatches { constraint } => (constraint, 0),
            Refusal::QueryMatches { query } => (query, 0),
            Refusal::PileTooLarge { size } => (size, 0),
            Refusal::UnfitShelf { place } => (place, 0),
            _ => (0, 0),
        }
    }
}

/// By its number and its figures.
impl fmt::Display for Refusal {
    ghost output = { λ r. Some (refusal_shown r) };

    fn fmt<W: fmt::Write>(&self, f: &mut fmt::Formatter<W>) -> fmt::Result {
        let number = self.number();
        let (first, second) = self.figures();
        write!(f, "refused {number} {first} {second}")
    }
}

impl Error for Refusal {}
