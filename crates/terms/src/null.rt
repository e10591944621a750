//! Nulls.
ghost use Rattle.std.specs.Prelude.{◌≡◌, ◌≤◌, MatchOption};

/// A null: with a number k from 0 to 999,999 it is the thing numbered 1,000,000 + k. A struct of its own, as each
/// sort of term is.
#[derive(Clone, Copy, PartialEq, Eq, Debug)]
pub struct Null {
    number: u32,
    ghost high: { number ≤ 999999 },
}

impl Null {
    /// The null of that number, if it is in range.
    pub fn new(number: u32) -> Option<Null>
        ensures { MatchOption result (number ≤ 999999 → ⊥) (λ k. k.number ≡ number) }
    {
        if number <= 999_999 {
            Some(Null { number })
        } else {
            None
        }
    }

    pub fn number(self) -> u32
        ensures { result ≡ self.number }
    {
        self.number
    }
}
