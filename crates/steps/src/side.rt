//! Side atoms: whether each body pattern, so bound, stands in the stock.
ghost use Rattle.fitting.specs.Bindings.{bound};
ghost use Rattle.matching.specs.Searches.{pile, patterns_meant};
ghost use Rattle.semantics.specs.Subject.{On, Holds};
ghost use Rattle.std.specs.Prelude.{Decides};
ghost use Rattle.steps.specs.Sides.{FirstMissing};
ghost use Rattle.atoms.specs.Meaning.{pattern_meant};

use atoms::atom::Pattern;
use fitting::binding::Binding;
use fitting::instance::bound_atom;
use shelves::stock::Stock;

/// Whether the pattern, so bound, stands in the stock.
pub(crate) fn stands<S: Stock>(stock: &S, binding: Binding, pattern: &Pattern) -> bool
    ensures { Decides result (Holds (On (pile (S.Stock.list stock.now))) (bound binding) (pattern_meant pattern.now)) }
{
    match bound_atom(binding, pattern) {
        Some(atom) => stock.contains(&atom),
        None => false,
    }
}

/// The index of the first pattern that, so bound, does not stand in the stock.
pub fn first_missing<S: Stock>(stock: &S, binding: Binding, patterns: &[Pattern]) -> Option<usize>
    ensures { FirstMissing (pile (S.Stock.list stock.now)) (bound binding) (patterns_meant patterns.now) result }
{
    // The index is the figure of the refusal, so the loop stands as the rules word it.
    for (index, pattern) in patterns.iter().enumerate() {
        if !stands(stock, binding, pattern) {
            return Some(index);
        }
    }
    None
}
