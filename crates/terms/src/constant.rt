//! Constants.
ghost use Rattle.std.specs.Prelude.{◌≡◌, ◌≤◌, MatchOption};

/// A constant: a number from 1 to 999,999. It shares no generic type with nulls and variables: each sort is a struct of its
/// own, so that a fact can never receive another.
#[derive(Clone, Copy, PartialEq, Eq, Debug)]
pub struct Constant {
    number: u32,
    ghost low: { 1 ≤ number },
    ghost high: { number ≤ 999999 },
}

impl Constant {
    /// The constant of that number, if it is in range.
    pub fn new(number: u32) -> Option<Constant>
        ensures { MatchOption result ((1 ≤ number) × (number ≤ 999999) → ⊥) (λ c. c.number ≡ number) }
    {
        if number >= 1 && number <= 999_999 {
            Some(Constant { number })
        } else {
            None
        }
    }

    pub fn number(self) -> u32
        ensures { result ≡ self.number }
    {
        self.number
    }
}
