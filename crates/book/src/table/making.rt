//! Filling a table and reading it.
ghost use Rattle.std.specs.Prelude.{◌≡◌, suc, ◌≤◌, [], length, IfOk};
ghost use Rattle.declarations.specs.Arities.{Added};
ghost use Rattle.semantics.specs.Subject.{numbered};
ghost use Rattle.book.specs.Tables.{entries, Full, HasRoom, Pushes};
ghost use Rattle.std.specs.List.{slice_get};
ghost use Rattle.std.specs.Option.{option_map};

use crate::table::Table;
use refusals::refusal::Refusal;
use std::alloc::{AllocError, Global};

impl<T: Drop, const N: usize> Table<T, N> {
    /// An empty table.
    pub fn new(heap: Global) -> Result<Table<T, N>, AllocError>
        ensures { IfOk result (λ t. entries t ≡ []) }
    {
        let items = Vec::with_capacity(heap, N)?;
        Ok(Table { items })
    }

    /// How many entries there are.
    pub fn len(&self) -> usize
        ensures { result ≡ length (entries self.now) }
    {
        self.items.len()
    }

    /// The entry of that number, if there is one.
    pub fn get(&self, number: usize) -> Option<&T>
        ensures { option_map (λ x. x.now) result ≡ numbered (entries self.now) number }
    {
        if number == 0 {
            return None;
        }
        self.as_slice().get(number - 1)
    }

    /// The entries in order.
    pub fn as_slice(&self) -> &[T]
        ensures { result.now ≡ entries self.now }
    {
        self.items.as_slice()
    }

    /// Refuses where the table is full.
    pub fn check_room(&self) -> Result<(), Refusal>
        ensures { HasRoom N self.now result }
    {
        if self.len() >= N {
            return Err(Refusal::TableFull);
        }
        Ok(())
    }

    /// Adds the entry, and answers its number.
    pub fn push(&mut self, item: T) -> Result<usize, Refusal>
        ensures { Pushes N self.old item result self.new }
    {
        self.check_room()?;
        Ok(self.add(item))
    }

    /// Adds the entry where there is room, and answers its number.
    pub(crate) fn add(&mut self, item: T) -> usize
        requires { Full N self.old → ⊥ }
        ensures { Added (entries self.old) item result (entries self.new) }
    {
        self.items.push_reserved(item);
        self.len()
    }
}
