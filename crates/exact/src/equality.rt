//! Equality that tells any two values apart.
ghost use Rattle.std.specs.Prelude.{◌≡◌, Decides};

/// Types whose `==` holds of a value and itself alone. The trait of `==` asks only that it is symmetric and transitive.
pub trait ExactEq: PartialEq {
    ghost exact: { (x y : Self) → Decides (Self.PartialEq.eq x y) (x ≡ y) };
}

/// Whether the two are the same value.
pub fn same<T: ExactEq>(a: &T, b: &T) -> bool
    ensures { Decides result (a.now ≡ b.now) }
{
    a == b
}
