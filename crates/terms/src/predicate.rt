//! Numbers from 1 up to a bound, and those of predicates.
ghost use Rattle.std.specs.Prelude.{◌≡◌, ◌≤◌, MatchOption};

/// A number from 1 to `MOST`.
#[derive(Clone, Copy, PartialEq, Eq, Debug)]
pub struct UpTo<const MOST: usize> {
    number: usize,
    ghost low: { 1 ≤ number },
    ghost high: { number ≤ MOST },
}

/// A predicate: a number from 1 to 64.
pub type Predicate = UpTo<64>;

impl<const MOST: usize> UpTo<MOST> {
    /// The value of that number, if it is in range.
    pub fn new(number: usize) -> Option<UpTo<MOST>>
        ensures { MatchOption result ((1 ≤ number) × (number ≤ MOST) → ⊥) (λ p. p.number ≡ number) }
    {
        if number >= 1 && number <= MOST {
            Some(UpTo { number })
        } else {
            None
        }
    }

    pub fn number(self) -> usize
        ensures { result ≡ self.entry.number }
    {
        self.number
    }
}

/// An arity: a number from 1 to 4.
pub type Arity = UpTo<4>;

/// The least arity.
impl Default for UpTo<4> {
    ghost is_default = { λ a. a.number ≡ 1 };

    fn default() -> Arity {
        UpTo { number: 1 }
    }
}
