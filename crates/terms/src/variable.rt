//! Variables.
ghost use Rattle.std.specs.Prelude.{◌≡◌, ◌+◌, ◌≤◌, MatchOption};

/// One of the variables v1 to v8, by its index from 0. A struct of its own, as each sort of term is.
#[derive(Clone, Copy, PartialEq, Eq, Debug)]
pub struct Variable {
    index: u8,
    ghost high: { index ≤ 7 },
}

impl Variable {
    /// Variable v1, v2, .. of that number, if it is one of the eight.
    pub fn new(number: u32) -> Option<Variable>
        ensures { MatchOption result ((1 ≤ number) × (number ≤ 8) → ⊥) (λ v. v.index + 1 ≡ number) }
    {
        if number >= 1 && number <= 8 {
            Some(Variable {
                index: (number - 1) as u8,
            })
        } else {
            None
        }
    }

    /// Its number, from 1 to 8.
    pub fn number(self) -> u32
        ensures { result ≡ self.index + 1 }
    {
        self.index as u32 + 1
    }

    /// Its place in a binding.
    pub fn index(self) -> usize
        ensures value { result ≡ self.index }
        ensures bound { result ≤ 7 }
    {
        self.index as usize
    }
}
