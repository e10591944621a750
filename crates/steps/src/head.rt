//! Fresh nulls for the existential variables of a head.
ghost use Rattle.fitting.specs.Bindings.{bound};
ghost use Rattle.steps.specs.Heads.{Freshened};
ghost use Rattle.atoms.specs.Meaning.{pattern_meant};
ghost use Rattle.terms.specs.Meaning.{slot_meant};
ghost use Rattle.std.specs.Prelude.{[], ◌∷◌};

use atoms::atom::Pattern;
use fitting::binding::Binding;
use terms::null::Null;
use terms::pattern_term::PatternTerm;
use terms::term::Term;

/// A binding, and how many nulls are issued with it.
#[derive(Clone, Copy)]
pub(crate) struct Fresh {
    pub(crate) binding: Binding,
    pub(crate) nulls: u32,
}

/// The slot, if it is a variable without a term, gets the next null.
fn fresh_slot(fresh: Fresh, slot: PatternTerm) -> Option<Fresh>
    ensures { Freshened (bound fresh.binding) fresh.nulls (slot_meant slot ∷ []) result }
{
    match slot {
        PatternTerm::Constant(_) => Some(fresh),
        PatternTerm::Variable(variable) => {
            let index = variable.index();
            let mut binding = fresh.binding;
            match binding[index] {
                Some(_) => Some(fresh),
                None => {
                    let null = Null::new(fresh.nulls)?;
                    binding[index] = Some(Term::Null(null));
                    Some(Fresh {
                        binding,
                        nulls: fresh.nulls + 1,
                    })
                }
            }
        }
    }
}

/// Each variable of the head without a term, in order of first appearance, gets the next null. Nothing where there is
/// none left: null 999,999 is the last.
pub(crate) fn with_nulls(fresh: Fresh, head: &Pattern) -> Option<Fresh>
    ensures { Freshened (bound fresh.binding) fresh.nulls (pattern_meant head.now).slots result }
{
    let mut now_fresh = fresh;
    for slot in head.terms.as_slice() {
        now_fresh = fresh_slot(now_fresh, *slot)?;
    }
    Some(now_fresh)
}
