//! Looking for a match of several patterns in a stock.
ghost use Rattle.std.specs.Prelude.{◌≡◌, suc, [], ◌∷◌, map};
ghost use Rattle.fitting.specs.Bindings.{bound};
ghost use Rattle.matching.specs.Searches.{pile, patterns_meant};
ghost use Rattle.semantics.specs.Computed.{nothing, reaches, first_match};
ghost use Rattle.semantics.specs.Subject.{On, Searched, in_patterns};
ghost use Rattle.std.specs.Option.{option_map};
ghost use Rattle.terms.specs.Meaning.{slot_meant};

use atoms::atom::Pattern;
use fitting::binding::{Binding, unbound};
use fitting::fit::fit;
use shelves::stock::Stock;
use terms::pattern_term::PatternTerm;
use terms::variable::Variable;

/// Whether the variable stands in one of the patterns.
fn stands_in(variable: Variable, patterns: &[Pattern]) -> bool
    ensures { result ≡ in_patterns (suc variable.index) (patterns_meant patterns.now) }
{
    patterns.iter().any(|pattern| pattern.has(variable))
}

/// Whether the slot is a variable that is not bound and stands in one of the patterns.
fn slot_reaches(binding: Binding, slot: PatternTerm, later: &[Pattern]) -> bool
    ensures { result ≡ reaches (bound binding) (slot_meant slot ∷ []) (patterns_meant later.now) }
{
    match slot {
        PatternTerm::Constant(_) => false,
        PatternTerm::Variable(variable) => {
            binding[variable.index()].is_none() && stands_in(variable, later)
        }
    }
}

/// Whether a variable of the slots that is not bound stands in one of the later patterns.
fn slots_reach(binding: Binding, slots: &[PatternTerm], later: &[Pattern]) -> bool
    ensures { result ≡ reaches (bound binding) (map slot_meant slots.now) (patterns_meant later.now) }
{
    slots.iter().any(|slot| slot_reaches(binding, *slot, later))
}

/// The first extension of the binding to a match, patterns from left to right and atoms by place. Where no further
/// variable of the first pattern stands in a later one, one atom that it fits is as good as another.
fn find_from<S: Stock>(stock: &S, patterns: &[Pattern], binding: Binding) -> Option<Binding>
    ensures { option_map bound result ≡ first_match (pile (S.Stock.list stock.now)) (bound binding) (patterns_meant patterns.now) }
{
    let [first, later @ ..] = patterns else {
        return Some(binding);
    };
    let again = slots_reach(binding, first.terms.as_slice(), later);
    // A `find_map` could not end here and go on there: what was found ends the loop only where it counts.
    for place in 0..stock.len() {
        if let Some(atom) = stock.get(place) {
            if let Some(more) = fit(binding, first, &atom) {
                let found = find_from(stock, later, more);
                if found.is_some() || !again {
                    return found;
                }
            }
        }
    }
    None
}

/// The first match of the patterns in the stock, if there is one.
pub fn find_match<S: Stock>(stock: &S, patterns: &[Pattern]) -> Option<Binding>
    ensures value { option_map bound result ≡ first_match (pile (S.Stock.list stock.now)) nothing (patterns_meant patterns.now) }
    ensures matched { Searched (On (pile (S.Stock.list stock.now))) (patterns_meant patterns.now) (option_map bound result) }
{
    find_from(stock, patterns, unbound())
}
