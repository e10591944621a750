//! What a stock is, and a shelf.
ghost use Rattle.std.specs.Prelude.{◌≡◌, ℕ, ◌+◌, ◌≤◌, List, length, OnErr, Decides, Contains, slice_get};
ghost use Rattle.atoms.specs.declared.atom.Atom.{Atom};
ghost use Rattle.terms.specs.declared.term.Term.{Term};
ghost use Rattle.shelves.specs.Puts.{Puts};

use crate::taken::{Full, Taken};
use atoms::atom::GroundAtom;

/// A list of at most 1,000,000 ground atoms.
pub trait Stock {
    ghost list: { Self → List (Atom Term) };

    ghost short: { (s : Self) → length (list s) ≤ 1000000 };

    /// How many atoms there are.
    fn len(&self) -> usize
        ensures { result ≡ length (list self.now) };

    /// The atom at that place, if there is one.
    fn get(&self, place: usize) -> Option<GroundAtom>
        ensures { result ≡ slice_get (list self.now) place };

    /// Whether the atom stands here.
    fn contains(&self, atom: &GroundAtom) -> bool
        ensures { Decides result (Contains (list self.now) atom.now) };
}

/// A stock that can also take atoms in.
pub trait Shelf: Stock {
    ghost free: { Self → ℕ };

    /// How many more atoms it can take in.
    fn free_count(&self) -> usize
        ensures count { result ≡ free self.now }
        ensures room { length (Self.Stock.list self.now) + result ≤ 1000000 };

    /// Puts a new atom at the end. A full shelf is left as it was, as a whole; of an atom that stands here already
    /// only the list and the free count are promised to stay. It has no body here: one would need a public push that asks
    /// for room, and no call of a store asks anything.
    fn put(&mut self, atom: GroundAtom) -> Result<Taken, Full>
        ensures puts { Puts (Self.Stock.list self.old) (free self.old) atom result (Self.Stock.list self.new) (free self.new) }
        ensures full { OnErr result (self.new ≡ self.old) };
}
