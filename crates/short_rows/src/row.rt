//! One to four of a kind.
ghost use Rattle.short_rows.specs.Tries.{Each, TriesFrom};
ghost use Rattle.std.specs.Cmp.Lexicographic.{lists_equiv, lists_per};
ghost use Rattle.std.specs.List.{slice_get};
ghost use Rattle.std.specs.Prelude.{◌≡◌, ◌≤◌, ◌<◌, [], ◌∷◌, ◌++◌, length, map, IfSome, MatchOption, ◌⊎◌, ℕ};
ghost use lib.Pointwise.{pointwise, pointwise_decides};

use exact::equality::ExactEq;
use std::marker::Model;

/// The same, by how many they are.
#[derive(Clone, Copy, Debug)]
enum Kept<T> {
    One([T; 1]),
    Two([T; 2]),
    Three([T; 3]),
    Four([T; 4]),
}

/// One to four of a kind, in order. A clause sees the list.
#[derive(Clone, Copy, Debug)]
pub struct Row<T> {
    kept: Kept<T>,
}

impl<T> Model for Row<T> {
    ghost use Rattle.std.specs.Prelude.{List};

    ghost Value = { List T };

    ghost use Rattle.short_rows.specs.Rows.{listed, unlisted, Whole, unlisted_listed};

    ghost view = { listed };

    ghost invariant = { Whole };

    ghost inverse = { unlisted };

    ghost inverse_ok = { unlisted_listed };
}

impl<T> Row<T> {
    /// All of them.
    pub fn as_slice(&self) -> &[T]
        ensures value { result.now ≡ self.now }
        ensures some { 1 ≤ length result.now }
        ensures few { length result.now ≤ 4 }
    {
        match &self.kept {
            Kept::One(all) => all,
            Kept::Two(all) => all,
            Kept::Three(all) => all,
            Kept::Four(all) => all,
        }
    }

    /// How many there are.
    pub fn len(&self) -> usize
        ensures value { result ≡ length self.now }
        ensures some { 1 ≤ result }
        ensures few { result ≤ 4 }
    {
        match self.kept {
            Kept::One(_) => 1,
            Kept::Two(_) => 2,
            Kept::Three(_) => 3,
            Kept::Four(_) => 4,
        }
    }
}

impl<T> Row<T> {
    /// A row of references to these, if they are one to four.
    pub fn lent<'a>(items: &'a [T]) -> Option<Row<&'a T>>
        ensures row { MatchOption result ((1 ≤ length items.now) × (length items.now ≤ 4) → ⊥) (λ row. map (λ x. x.now) row ≡ items.now) }
        ensures few { IfSome result (λ _. (1 ≤ length items.now) × (length items.now ≤ 4)) }
    {
        match items {
            [a] => Row::from_slice(&[a]),
            [a, b] => Row::from_slice(&[a, b]),
            [a, b, c] => Row::from_slice(&[a, b, c]),
            [a, b, c, d] => Row::from_slice(&[a, b, c, d]),
            _ => None,
        }
    }
}

impl<T: Copy> Row<T> {
    /// A row of one.
    pub fn one(item: T) -> Row<T>
        ensures { result ≡ item ∷ [] }
    {
        Row {
            kept: Kept::One([item]),
        }
    }

    /// A row of these, if they are one to four.
    pub fn from_slice(items: &[T]) -> Option<Row<T>>
        ensures { MatchOption result ((1 ≤ length items.now) × (length items.now ≤ 4) → ⊥) (λ row. row ≡ items.now) }
    {
        let kept = match items {
            [a] => Kept::One([*a]),
            [a, b] => Kept::Two([*a, *b]),
            [a, b, c] => Kept::Three([*a, *b, *c]),
            [a, b, c, d] => Kept::Four([*a, *b, *c, *d]),
            _ => return None,
        };
        Some(Row { kept })
    }

    /// The one at that index, if there is one.
    pub fn get(&self, index: usize) -> Option<T>
        ensures { result ≡ slice_get self.now index }
    {
        self.as_slice().get(index).copied()
    }

    /// With one more at the end; none where there are four.
    pub fn push(&self, item: T) -> Option<Row<T>>
        ensures { MatchOption result (4 ≤ length self.now) (λ row. row ≡ self.now ++ item ∷ []) }
    {
        let kept = match self.kept {
            Kept::One(all) => Kept::Two([all[0], item]),
            Kept::Two(all) => Kept::Three([all[0], all[1], item]),
            Kept::Three(all) => Kept::Four([all[0], all[1], all[2], item]),
            Kept::Four(_) => return None,
        };
        Some(Row { kept })
    }

    /// What the function gives of each.
    pub fn map<U, F: Fn(T) -> U>(&self, f: F) -> Row<U>
        requires { F.IsAlwaysCallable f }
        ensures { Each (F.post f) self.now result }
    {
        let kept = match self.kept {
            Kept::One(all) => Kept::One([f(all[0])]),
            Kept::Two(all) => Kept::Two([f(all[0]), f(all[1])]),
            Kept::Three(all) => Kept::Three([f(all[0]), f(all[1]), f(all[2])]),
            Kept::Four(all) => Kept::Four([f(all[0]), f(all[1]), f(all[2]), f(all[3])]),
        };
        Row { kept }
    }

    /// What the function gives of each, with its index, up to the first error.
    pub fn try_map<U: Drop, E, F: Fn(usize, T) -> Result<U, E>>(&self, f: F) -> Result<Row<U>, E>
        requires { F.IsAlwaysCallable f }
        ensures { TriesFrom (F.post f) 0 self.now result }
    {
        let kept = match self.as_slice() {
            [a] => Kept::One([f(0, *a)?]),
            [a, b] => Kept::Two([f(0, *a)?, f(1, *b)?]),
            [a, b, c] => Kept::Three([f(0, *a)?, f(1, *b)?, f(2, *c)?]),
            [a, b, c, d] => Kept::Four([f(0, *a)?, f(1, *b)?, f(2, *c)?, f(3, *d)?]),
            _ => unreachable(),
        };
        Ok(Row { kept })
    }
}

/// Of rows as of their slices. A derive would compare the halves that no clause sees.
impl<T: PartialEq> PartialEq for Row<T> {
    ghost eq = { pointwise T.PartialEq.eq };

    ghost laws = { lists_per T.PartialEq.laws };

    fn eq(&self, other: &Row<T>) -> bool {
        self.as_slice() == other.as_slice()
    }
}

impl<T: Eq> Eq for Row<T> {
    ghost laws = { lists_equiv T.Eq.laws };
}

impl<T: ExactEq> ExactEq for Row<T> {
    ghost exact = { pointwise_decides T.ExactEq.exact };
}
