//! The equality of terms and predicates tells any two apart.
ghost use Rattle.terms.specs.Same.{constant_exact, null_exact, pattern_term_exact, up_to_exact, term_exact, variable_exact};
ghost use Rattle.std.specs.Prelude.{refl};

use crate::constant::Constant;
use crate::null::Null;
use crate::pattern_term::PatternTerm;
use crate::predicate::UpTo;
use crate::term::Term;
use crate::variable::Variable;
use exact::equality::ExactEq;

impl ExactEq for Constant {
    ghost exact = { constant_exact };
}

impl ExactEq for Null {
    ghost exact = { null_exact };
}

impl<const MOST: usize> ExactEq for UpTo<MOST> {
    ghost exact = { up_to_exact };
}

impl ExactEq for Variable {
    ghost exact = { variable_exact };
}

impl ExactEq for Term {
    ghost exact = { term_exact _ (λ c d. refl) (λ c k. refl) (λ k c. refl) (λ k j. refl) };
}

impl ExactEq for PatternTerm {
    ghost exact = { pattern_term_exact _ (λ c d. refl) (λ c v. refl) (λ v c. refl) (λ v w. refl) };
}
