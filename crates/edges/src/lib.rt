//! The edges of the definitions that the calls use, as one theorem.
#![tactic(auto)]

ghost use Rattle.edges.specs.Edges.{Edges};

/// The edge cases hold. There is nothing to run: the promise is the theorem.
pub fn edges_hold() -> bool
    ensures { Edges }
{
    true
}
