//! The memory that shelves are made of.
ghost use Rattle.std.specs.Prelude.{◌≡◌};
ghost use Rattle.shelves.specs.Blank.{blank_atom, first_predicate, first_constant};

use atoms::atom::{Atom, GroundAtom};
use short_rows::row::Row;
use terms::constant::Constant;
use terms::predicate::Predicate;
use terms::term::Term;

/// Room for one atom.
#[derive(Clone, Copy)]
pub struct Record {
    pub atom: GroundAtom,
}

impl Record {
    /// A record to lend: it holds predicate 1 with the one term constant 1.
    pub fn blank() -> Record
        ensures { result.atom ≡ blank_atom }
    {
        let predicate = first_predicate();
        let terms = Row::one(Term::Constant(first_constant()));
        Record {
            atom: Atom { predicate, terms },
        }
    }
}

/// The blank record.
impl Default for Record {
    ghost is_default = { λ r. r.atom ≡ blank_atom };

    fn default() -> Record {
        Record::blank()
    }
}

fn first_predicate() -> Predicate
    ensures { result ≡ first_predicate }
{
    Predicate::new(1).unwrap()
}

fn first_constant() -> Constant
    ensures { result ≡ first_constant }
{
    Constant::new(1).unwrap()
}
