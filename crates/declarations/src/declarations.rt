//! The predicates that are declared.
ghost use Rattle.std.specs.Prelude.{◌≡◌, ◌≤◌, [], length, IfSome};

use crate::arity::Arity;
use arrayvec::ArrayVec;
use refusals::refusal::Refusal;

/// The arities of the declared predicates, which are numbered from 1 in the order of their declaration. At most 64.
#[derive(Drop)]
pub struct Declarations {
    items: ArrayVec<Arity, 64>,
    ghost few: { length items.items ≤ 64 },
}

impl Declarations {
    ghost use Rattle.declarations.specs.Arities.{arities_of, arity_value, Declares};
    ghost use Rattle.semantics.specs.Subject.{numbered};
    ghost use Rattle.std.specs.Option.{option_map};

    /// Nothing is declared.
    pub fn new() -> Declarations
        ensures { arities_of result ≡ [] }
    {
        Declarations {
            items: ArrayVec::new(),
        }
    }

    /// The arity of the predicate of that number, if it is declared.
    pub fn arity(&self, predicate: usize) -> Option<Arity>
        ensures value { option_map arity_value result ≡ numbered (arities_of self.now) predicate }
        ensures few { IfSome result (λ _. (1 ≤ predicate) × (predicate ≤ 64)) }
    {
        if predicate == 0 {
            return None;
        }
        self.items.as_slice().get(predicate - 1).copied()
    }

    /// Declares a predicate of that arity, and answers its number.
    pub fn declare(&mut self, arity: usize) -> Result<usize, Refusal>
        ensures { Declares self.old arity result self.new }
    {
        if self.items.is_full() {
            return Err(Refusal::NoPredicateLeft);
        }
        let arity = Arity::new(arity).ok_or(Refusal::ArityOutOfRange { arity })?;
        self.items.push(arity);
        Ok(self.items.len())
    }
}
