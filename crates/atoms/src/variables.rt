//! Which variables stand in a pattern.
ghost use Rattle.atoms.specs.Meaning.{pattern_meant};
ghost use Rattle.semantics.specs.Subject.{in_slots, is_var};
ghost use Rattle.std.specs.List.{list_any};
ghost use Rattle.std.specs.Prelude.{◌≡◌, suc};
ghost use Rattle.terms.specs.Meaning.{slot_meant};

use crate::atom::Atom;
use terms::pattern_term::PatternTerm;
use terms::variable::Variable;

/// Whether one of the terms is the variable.
fn any_is(terms: &[PatternTerm], variable: Variable) -> bool
    ensures { result ≡ list_any (λ t. is_var (suc variable.index) (slot_meant t)) terms.now }
{
    terms.iter().any(|term| term.is(variable))
}

impl Atom<PatternTerm> {
    /// Whether the variable stands in the pattern.
    pub fn has(&self, variable: Variable) -> bool
        ensures { result ≡ in_slots (suc variable.index) (pattern_meant self.now).slots }
    {
        any_is(self.terms.as_slice(), variable)
    }
}
