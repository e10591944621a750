//! Reading raw terms as terms of a sort.
ghost use Rattle.std.specs.Prelude.{Option};
ghost use Rattle.reading.specs.Written.{constant_written, term_written, slot_written, Reads, ReadsAt, ReadsAll};
ghost use Rattle.reading.specs.declared.raw.RawTerm.{RawTerm};

use crate::raw::RawTerm;
use short_rows::row::Row;
use terms::constant::Constant;
use terms::null::Null;
use terms::pattern_term::PatternTerm;
use terms::term::Term;
use terms::variable::Variable;

/// What may stand as a term: of facts, of ground atoms or of patterns.
pub trait Sort: Copy {
    /// How it is written.
    ghost written: { Self → RawTerm };

    /// The value that is written so, if there is one.
    fn read(raw: RawTerm) -> Option<Self>
        ensures { Reads written raw result };
}

impl Sort for Constant {
    ghost written = { constant_written };

    fn read(raw: RawTerm) -> Option<Constant> {
        match raw {
            RawTerm::Constant(number) => Constant::new(number),
            RawTerm::Null(_) => None,
            RawTerm::Variable(_) => None,
        }
    }
}

impl Sort for Term {
    ghost written = { term_written };

    fn read(raw: RawTerm) -> Option<Term> {
        match raw {
            RawTerm::Constant(number) => Some(Term::Constant(Constant::new(number)?)),
            RawTerm::Null(number) => Some(Term::Null(Null::new(number)?)),
            RawTerm::Variable(_) => None,
        }
    }
}

impl Sort for PatternTerm {
    ghost written = { slot_written };

    fn read(raw: RawTerm) -> Option<PatternTerm> {
        match raw {
            RawTerm::Constant(number) => Some(PatternTerm::Constant(Constant::new(number)?)),
            RawTerm::Null(_) => None,
            RawTerm::Variable(number) => Some(PatternTerm::Variable(Variable::new(number)?)),
        }
    }
}

/// The value that is written so, else its index.
fn read_at<T: Sort>(raw: RawTerm, index: usize) -> Result<T, usize>
    ensures { ReadsAt T.Sort.written raw index result }
{
    T::read(raw).ok_or(index)
}

/// The terms that are written so; else the lowest index at which none is.
#[tactic(auto, using(crate::proofs::Rowwise::tries_read))]
pub fn read_row<T: Sort>(row: Row<RawTerm>) -> Result<Row<T>, usize>
    ensures { ReadsAll T.Sort.written row result }
{
    row.try_map(|index, raw| read_at(raw, index))
}
