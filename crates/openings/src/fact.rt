//! Whether an atom is a fact of a book.
ghost use Rattle.atoms.specs.Meaning.{atom_meant};
ghost use Rattle.book.specs.Theory.{predicates_of};
ghost use Rattle.chase.specs.Unfit.{IsConstant, FactOf};
ghost use Rattle.semantics.specs.Subject.{numbered};
ghost use Rattle.std.specs.Prelude.{◌≡◌, map, length, Some as is, Decides};
ghost use Rattle.std.specs.List.{AllByRecursion};
ghost use Rattle.openings.specs.Constants.{is_fixed};
ghost use Rattle.terms.specs.Meaning.{term_meant};

use atoms::atom::GroundAtom;
use book::book::Book;
use terms::term::Term;

/// Whether the term is a constant.
fn is_constant(term: Term) -> bool
    ensures { result ≡ is_fixed term }
{
    matches!(term, Term::Constant(_))
}

/// Whether each term is a constant.
fn are_constants(terms: &[Term]) -> bool
    ensures { Decides result (AllByRecursion IsConstant (map term_meant terms.now)) }
{
    terms.iter().all(|term| is_constant(*term))
}

/// Whether the predicate is declared with as many terms.
fn is_declared(atom: &GroundAtom, book: &Book) -> bool
    ensures { Decides result (numbered (predicates_of book.now) atom.now.predicate.number ≡ is (length (atom_meant atom.now).terms)) }
{
    book.arity(atom.predicate.number())
        .is_some_and(|arity| arity.number() == atom.terms.len())
}

/// Whether the atom is a fact of the book.
pub(crate) fn is_fact(atom: &GroundAtom, book: &Book) -> bool
    ensures { Decides result (FactOf (predicates_of book.now) (atom_meant atom.now)) }
{
    is_declared(atom, book) && are_constants(atom.terms.as_slice())
}
