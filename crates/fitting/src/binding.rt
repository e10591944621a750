//! Bindings.
ghost use Rattle.std.specs.Prelude.{◌≡◌, ℕ, None};
ghost use Rattle.fitting.specs.Bindings.{bound};

use terms::term::Term;

/// What each of the eight variables is bound to, v1 first.
pub type Binding = [Option<Term>; 8];

/// The binding of no variable.
pub fn unbound() -> Binding
    ensures { (i : ℕ) → bound result i ≡ None }
{
    [None; 8]
}
