//! How terms and predicates are shown: a constant by its number, null k as nk, variable v1 as v1.
ghost use Rattle.std.specs.Prelude.{Some, decimal, ◌+◌, ◌∷◌};
ghost use Rattle.terms.specs.Shown.{pattern_term_shown, term_shown};

use crate::constant::Constant;
use crate::null::Null;
use crate::pattern_term::PatternTerm;
use crate::predicate::UpTo;
use crate::term::Term;
use crate::variable::Variable;
use std::fmt;

impl fmt::Display for Constant {
    ghost output = { λ c. Some (decimal c.number) };

    fn fmt<W: fmt::Write>(&self, f: &mut fmt::Formatter<W>) -> fmt::Result {
        write!(f, "{}", self.number())
    }
}

impl fmt::Display for Null {
    ghost output = { λ k. Some (110 ∷ decimal k.number) };

    fn fmt<W: fmt::Write>(&self, f: &mut fmt::Formatter<W>) -> fmt::Result {
        write!(f, "n{}", self.number())
    }
}

impl fmt::Display for Variable {
    ghost output = { λ v. Some (118 ∷ decimal (v.index + 1)) };

    fn fmt<W: fmt::Write>(&self, f: &mut fmt::Formatter<W>) -> fmt::Result {
        write!(f, "v{}", self.number())
    }
}

impl<const MOST: usize> fmt::Display for UpTo<MOST> {
    ghost output = { λ p. Some (decimal p.number) };

    fn fmt<W: fmt::Write>(&self, f: &mut fmt::Formatter<W>) -> fmt::Result {
        self.number().fmt(f)
    }
}

impl fmt::Display for Term {
    ghost output = { λ t. Some (term_shown t) };

    fn fmt<W: fmt::Write>(&self, f: &mut fmt::Formatter<W>) -> fmt::Result {
        match self {
            Term::Constant(constant) => constant.fmt(f),
            Term::Null(null) => null.fmt(f),
        }
    }
}

impl fmt::Display for PatternTerm {
    ghost output = { λ t. Some (pattern_term_shown t) };

    fn fmt<W: fmt::Write>(&self, f: &mut fmt::Formatter<W>) -> fmt::Result {
        match self {
            PatternTerm::Constant(constant) => constant.fmt(f),
            PatternTerm::Variable(variable) => variable.fmt(f),
        }
    }
}
