//! What a checker answers.
ghost use Rattle.calls.specs.Shown.{verdict_shown};
ghost use Rattle.std.specs.Prelude.{Some};

use std::fmt;

/// What an accepted certificate shows.
#[derive(Clone, Copy, PartialEq, Eq, Debug)]
pub enum Verdict {
    /// The query has a match in every model.
    Entailed {
        query: usize,
        /// How many atoms the check added.
        added: usize,
        /// How many nulls it issued.
        nulls: u32,
    },
    /// No model obeys the constraint.
    Inconsistent {
        constraint: usize,
        added: usize,
        nulls: u32,
    },
    /// Some model has no match of the query.
    NotEntailed {
        query: usize,
        /// How many atoms that model has.
        size: usize,
    },
}

impl fmt::Display for Verdict {
    ghost output = { λ v. Some (verdict_shown v) };

    fn fmt<W: fmt::Write>(&self, f: &mut fmt::Formatter<W>) -> fmt::Result {
        match self {
            Verdict::Entailed {
                query,
                added,
                nulls,
            } => write!(f, "entailed {query} {added} {nulls}"),
            Verdict::Inconsistent {
                constraint,
                added,
                nulls,
            } => write!(f, "inconsistent {constraint} {added} {nulls}"),
            Verdict::NotEntailed { query, size } => write!(f, "not-entailed {query} {size}"),
        }
    }
}

/// A check, and the query that it is of.
#[derive(Clone, Copy, PartialEq, Eq, Debug)]
pub enum Check {
    Derivation(usize),
    Model(usize),
}
