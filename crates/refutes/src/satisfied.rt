//! Whether a rule is satisfied at a place.
ghost use Rattle.atoms.specs.Meaning.{pattern_meant};
ghost use Rattle.chase.specs.Satisfying.{HeadThere, SatisfiedAt};
ghost use Rattle.fitting.specs.Bindings.{bound};
ghost use Rattle.matching.specs.Searches.{pile};
ghost use Rattle.rules.specs.Meaning.{rule_meant};
ghost use Rattle.std.specs.Prelude.{Decides};

use atoms::atom::Pattern;
use fitting::binding::{Binding, unbound};
use fitting::fit::fit;
use fitting::trial::head_fits;
use rules::rule::Rule;
use shelves::stock::Stock;
use steps::side::first_missing;

/// Whether the head fits an atom of the stock under an extension of the binding.
fn head_there<S: Stock>(stock: &S, head: &Pattern, mut binding: Binding) -> bool
    ensures { Decides result (HeadThere (pile (S.Stock.list stock.now)) (pattern_meant head.now) (bound binding)) }
{
    // The guard of the trial puts the binding back; a closure that lends it would leave the proof without that.
    for place in 0..stock.len() {
        if let Some(atom) = stock.get(place) {
            if head_fits(head, &atom, &mut binding) {
                return true;
            }
        }
    }
    false
}

/// Whether the rule is satisfied at the place: it may not be used there, or an atom is there for its head.
pub(crate) fn satisfied_at<S: Stock>(stock: &S, rule: &Rule, place: usize) -> bool
    ensures { Decides result (SatisfiedAt (pile (S.Stock.list stock.now)) (rule_meant rule.now) place) }
{
    let Some(atom) = stock.get(place) else {
        return true;
    };
    let Some(binding) = fit(unbound(), rule.guard_pattern(), &atom) else {
        return true;
    };
    match first_missing(stock, binding, rule.body()) {
        Some(_) => true,
        None => head_there(stock, rule.head(), binding),
    }
}
