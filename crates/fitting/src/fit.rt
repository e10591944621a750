//! Fitting one pattern to one atom.
ghost use Rattle.atoms.specs.Meaning.{atom_meant, pattern_meant};
ghost use Rattle.fitting.specs.Bindings.{bound};
ghost use Rattle.semantics.specs.Computed.{fit, fit_slot, fit_slots};
ghost use Rattle.semantics.specs.Subject.{Fitted};
ghost use Rattle.std.specs.Option.{option_map};
ghost use Rattle.std.specs.Prelude.{◌≡◌, ◌==◌, cond, map, None, Some};
ghost use Rattle.terms.specs.Meaning.{slot_meant, term_meant};

use crate::binding::Binding;
use atoms::atom::{GroundAtom, Pattern};
use exact::equality::same;
use terms::pattern_term::PatternTerm;
use terms::term::Term;

/// The binding as it is, where the two terms are the same.
fn if_same(binding: Binding, held: Term, term: Term) -> Option<Binding>
    ensures { option_map bound result ≡ cond (term_meant held == term_meant term) (Some (bound binding)) None }
{
    same(&held, &term).then_some(binding)
}

/// The binding, extended so that the slot is the term.
fn fit_slot(binding: Binding, slot: PatternTerm, term: Term) -> Option<Binding>
    ensures { option_map bound result ≡ fit_slot (bound binding) (slot_meant slot) (term_meant term) }
{
    match slot {
        PatternTerm::Constant(constant) => if_same(binding, Term::Constant(constant), term),
        PatternTerm::Variable(variable) => {
            let index = variable.index();
            match binding[index] {
                None => {
                    let mut more = binding;
                    more[index] = Some(term);
                    Some(more)
                }
                Some(old) => if_same(binding, old, term),
            }
        }
    }
}

/// The binding, extended so that the slots are the terms, one by one.
fn fit_slots(binding: Binding, slots: &[PatternTerm], terms: &[Term]) -> Option<Binding>
    ensures { option_map bound result ≡ fit_slots (bound binding) (map slot_meant slots.now) (map term_meant terms.now) }
{
    match (slots, terms) {
        ([], []) => Some(binding),
        ([slot, slots @ ..], [term, terms @ ..]) => {
            let more = fit_slot(binding, *slot, *term)?;
            fit_slots(more, slots, terms)
        }
        ([], [_, ..]) => None,
        ([_, ..], []) => None,
    }
}

/// The least extension of the binding under which the pattern fits the atom, if there is one.
pub fn fit(binding: Binding, pattern: &Pattern, atom: &GroundAtom) -> Option<Binding>
    ensures value { option_map bound result ≡ fit (bound binding) (pattern_meant pattern.now) (atom_meant atom.now) }
    ensures fitted { Fitted (bound binding) (pattern_meant pattern.now) (atom_meant atom.now) (option_map bound result) }
{
    if pattern.predicate == atom.predicate {
        fit_slots(binding, pattern.terms.as_slice(), atom.terms.as_slice())
    } else {
        None
    }
}
