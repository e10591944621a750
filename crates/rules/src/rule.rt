//! Rules.
ghost use Rattle.declarations.specs.Bodies.{patterns_meant};
ghost use Rattle.semantics.specs.Computed.{guard as guard_of};
ghost use Rattle.std.proofs.Props.{props};
ghost use Rattle.std.specs.Prelude.{◌≡◌, ◌≤◌, length, Some};

use atoms::atom::Pattern;
use declarations::patterns::Patterns;

mod covering;
mod making;

pub use making::check_rule;

/// A rule. There is none without a guard: the leftmost body pattern that has every variable of the body.
#[derive(Clone, Copy, Debug)]
pub struct Rule {
    body: Patterns,
    guard: usize,
    head: Pattern,
    ghost guarded: { guard_of (patterns_meant body) ≡ Some guard } by { Prim.hlevel props },
    ghost few: { length head.terms ≤ 4 },
    ghost short: { length body ≤ 4 },
}
