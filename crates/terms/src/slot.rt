//! Whether a term of a pattern is a given variable.
ghost use Rattle.std.specs.Prelude.{◌≡◌, suc};
ghost use Rattle.semantics.specs.Subject.{is_var};
ghost use Rattle.terms.specs.Meaning.{slot_meant};

use crate::pattern_term::PatternTerm;
use crate::variable::Variable;

impl PatternTerm {
    /// Whether it is the variable.
    pub fn is(self, variable: Variable) -> bool
        ensures { result ≡ is_var (suc variable.index) (slot_meant self) }
    {
        match self {
            PatternTerm::Constant(_) => false,
            PatternTerm::Variable(other) => variable.index() == other.index(),
        }
    }
}
