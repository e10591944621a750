//! Trying a head against an atom.
ghost use Rattle.fitting.specs.Bindings.{bound};
ghost use Rattle.semantics.specs.Subject.{Fittable};
ghost use Rattle.std.specs.Prelude.{◌≡◌, Decides};
ghost use Rattle.atoms.specs.Meaning.{atom_meant, pattern_meant};

use crate::binding::Binding;
use crate::fit::fit;
use atoms::atom::{GroundAtom, Pattern};

/// Puts the binding back when it goes.
struct Trial<'a> {
    binding: &'a mut Binding,
    before: Binding,
}

impl Drop for Trial<'_> {
    fn drop(self)
        ensures { self.exit.0.now ≡ self.entry.before }
    {
        *self.binding = self.before;
        let Trial {
            binding: _,
            before: _,
        } = self;
    }
}

/// Extends the binding so that the pattern fits the atom, where that can be.
fn extend(pattern: &Pattern, atom: &GroundAtom, binding: &mut Binding) -> bool
    ensures { Decides result (Fittable (bound binding.old) (pattern_meant pattern.now) (atom_meant atom.now)) }
{
    match fit(*binding, pattern, atom) {
        Some(more) => {
            *binding = more;
            true
        }
        None => false,
    }
}

/// Whether an extension of the body's binding makes the head fit the atom. The binding is left as it was, the
/// existential variables unbound again.
pub fn head_fits(head: &Pattern, atom: &GroundAtom, binding: &mut Binding) -> bool
    ensures same { binding.new ≡ binding.old }
    ensures answer { Decides result (Fittable (bound binding.old) (pattern_meant head.now) (atom_meant atom.now)) }
{
    let before = *binding;
    let trial = Trial { binding, before };
    if head.predicate != atom.predicate {
        return false;
    }
    extend(head, atom, trial.binding)
}
