//! Judging a chase step: the head that a rule gives at a place.
ghost use Rattle.fitting.specs.Bindings.{bound};
ghost use Rattle.matching.specs.Searches.{pile};
ghost use Rattle.rules.specs.Meaning.{rule_meant};
ghost use Rattle.steps.specs.Judged.{Borne, Judged};
ghost use Rattle.atoms.specs.Meaning.{pattern_meant};

use crate::head::{Fresh, with_nulls};
use crate::side::first_missing;
use atoms::atom::{GroundAtom, Pattern};
use fitting::binding::{Binding, unbound};
use fitting::instance::bound_atom;
use matching::places::fit_at;
use refusals::refusal::Refusal;
use rules::rule::Rule;
use shelves::stock::Stock;

/// A rule's head, bound, and how many nulls are issued with it.
#[derive(Clone, Copy)]
pub struct Head {
    pub atom: GroundAtom,
    pub nulls: u32,
}

/// The head under the binding, each existential variable being the next null.
pub(crate) fn bear(head: &Pattern, binding: Binding, nulls: u32) -> Option<Head>
    ensures { Borne (bound binding) nulls (pattern_meant head.now) result }
{
    let fresh = with_nulls(Fresh { binding, nulls }, head)?;
    let atom = bound_atom(fresh.binding, head)?;
    Some(Head {
        atom,
        nulls: fresh.nulls,
    })
}

/// The head that the rule gives at the place, where the chase rule allows it.
pub fn judge_step<S: Stock>(
    stock: &S,
    rule: &Rule,
    place: usize,
    nulls: u32,
) -> Result<Head, Refusal>
    ensures { Judged (pile (S.Stock.list stock.now)) (rule_meant rule.now) place nulls result }
{
    let binding = fit_at(stock, unbound(), 0, rule.guard_pattern(), place)?;
    if let Some(pattern) = first_missing(stock, binding, rule.body()) {
        return Err(Refusal::SideAtomMissing { pattern });
    }
    bear(rule.head(), binding, nulls).ok_or(Refusal::OverlayFull)
}
