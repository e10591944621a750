//! The first four of a kind.
ghost use Rattle.std.specs.Prelude.{IfSome, MatchOption, [], ⊤, ◌≡◌, ◌≤◌, length, min, take};

use crate::row::Row;
use std::alloc::AllocError;
use std::marker::Model;

/// Any number of a kind, none included. Only the first four are kept, beside the number of all: no predicate takes more
/// terms and no list has more patterns, so what is longer is refused by its number alone. A clause sees the number and
/// the list of those that are kept.
#[derive(Copy, Debug)]
pub struct FirstFour<T> {
    count: usize,
    first: Option<Row<T>>,
}

impl<T> Model for FirstFour<T> {
    ghost use Rattle.short_rows.specs.Firsts.{Firsts};

    ghost Value = { Firsts T };

    ghost use Rattle.short_rows.specs.Kept.{seen, Kept, unseen, unseen_seen};

    ghost view = { seen };

    ghost invariant = { Kept };

    ghost inverse = { unseen };

    ghost inverse_ok = { unseen_seen };
}

/// A copy. A derive would clone each item, and what it makes of them is not known to be kept whole.
impl<T: Copy> Clone for FirstFour<T> {
    ghost is_clone = { λ x y. y ≡ x };

    ghost is_infallible = { λ _. ⊤ };

    fn clone(&self) -> Result<FirstFour<T>, AllocError> {
        Ok(*self)
    }
}

impl<T: Copy> FirstFour<T> {
    /// The first four of these, and how many there are.
    pub fn new(items: &[T]) -> FirstFour<T>
        ensures count { result.count ≡ length items.now }
        ensures first { result.first ≡ take 4 items.now }
    {
        let count = items.len();
        FirstFour {
            count,
            first: Row::from_slice(&items[..count.min(4)]),
        }
    }

    /// How many there are.
    pub fn count(&self) -> usize
        ensures { result ≡ self.now.count }
    {
        self.count
    }

    /// The first four, if there are any.
    pub fn first(&self) -> Option<Row<T>>
        ensures row { MatchOption result (self.now.first ≡ []) (λ row. row ≡ self.now.first) }
        ensures some { IfSome result (λ row. 1 ≤ length row) }
        ensures kept { length self.now.first ≡ min self.now.count 4 }
    {
        self.first
    }

    /// The first four.
    pub fn as_slice(&self) -> &[T]
        ensures value { result.now ≡ self.now.first }
        ensures kept { length result.now ≡ min self.now.count 4 }
    {
        match &self.first {
            Some(row) => row.as_slice(),
            None => &[],
        }
    }
}
