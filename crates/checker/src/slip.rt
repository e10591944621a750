//! Slips: one is handed out for each opening, and each must be spent.
ghost use Rattle.std.specs.Prelude.{◌≡◌};

use crate::kind::{Derivation, Model};
use refusals::refusal::Refusal;
use std::marker::PhantomData;

/// Handed out for a check of the kind K. It cannot be let go nor made outside.
pub struct Slip<K> {
    number: u16,
    kind: PhantomData<K>,
}

/// Handed out for a derivation: claim, clash or strike spends it.
pub type DerivationSlip = Slip<Derivation>;

/// Handed out for a model: refute or strike spends it.
pub type ModelSlip = Slip<Model>;

/// A refused call's reason, and its slip back.
pub struct Returned<L> {
    pub refusal: Refusal,
    pub slip: L,
}

impl<K> std::marker::Model for Slip<K> {
    ghost use Rattle.std.specs.Prelude.{ℕ};

    ghost Value = { ℕ };

    ghost view = { λ s. s.number };
}

impl<K> Slip<K> {
    pub(crate) fn new(number: u16) -> Slip<K>
        ensures { result ≡ number }
    {
        Slip {
            number,
            kind: PhantomData,
        }
    }

    /// The number of the checker that handed it out.
    pub fn number(&self) -> u16
        ensures { result ≡ self.now }
    {
        self.number
    }

    pub(crate) fn spend(self) -> u16
        ensures { result ≡ self }
    {
        let Slip { number, kind: _ } = self;
        number
    }
}
