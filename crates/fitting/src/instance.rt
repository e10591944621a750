//! A pattern under a binding.
ghost use Rattle.atoms.specs.Meaning.{atom_meant, pattern_meant};
ghost use Rattle.fitting.specs.Bindings.{bound};
ghost use Rattle.fitting.specs.Instances.{AllGivenOr, GivenOr};
ghost use Rattle.semantics.specs.Subject.{Instance};
ghost use Rattle.std.specs.Option.{option_map};
ghost use Rattle.std.specs.Prelude.{map};
ghost use Rattle.terms.specs.Meaning.{slot_meant, term_meant};

use crate::binding::Binding;
use atoms::atom::{Atom, GroundAtom, Pattern};
use short_rows::row::Row;
use terms::pattern_term::PatternTerm;
use terms::term::Term;

/// A variable is not bound.
#[derive(Clone, Copy, Debug)]
struct Unbound;

/// The term that the slot is under the binding.
fn bound_term(binding: Binding, slot: PatternTerm) -> Result<Term, Unbound>
    ensures { GivenOr (bound binding) (slot_meant slot) result }
{
    match slot {
        PatternTerm::Constant(constant) => Ok(Term::Constant(constant)),
        PatternTerm::Variable(variable) => binding[variable.index()].ok_or(Unbound),
    }
}

/// The terms that the slots are under the binding.
#[tactic(auto, using(crate::proofs::Instanced::tries_given))]
fn bound_row(binding: Binding, slots: &Row<PatternTerm>) -> Result<Row<Term>, Unbound>
    ensures { AllGivenOr (bound binding) (map slot_meant slots.now) result }
{
    slots.try_map(|_, slot| bound_term(binding, slot))
}

/// The atom that the pattern fits under the binding, if each of its variables is bound.
pub fn bound_atom(binding: Binding, pattern: &Pattern) -> Option<GroundAtom>
    ensures { Instance (bound binding) (pattern_meant pattern.now) (option_map atom_meant result) }
{
    let Ok(terms) = bound_row(binding, &pattern.terms) else {
        return None;
    };
    Some(Atom {
        predicate: pattern.predicate,
        terms,
    })
}
