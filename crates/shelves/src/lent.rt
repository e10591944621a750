//! A shelf that is lent is a shelf.
ghost use Rattle.std.specs.Prelude.{◌≡◌, OnErr};
ghost use Rattle.shelves.specs.Puts.{Puts};

use crate::stock::{Shelf, Stock};
use crate::taken::{Full, Taken};
use atoms::atom::GroundAtom;

impl<'b, S: Shelf> Stock for &'b mut S {
    ghost list = { λ r. S.Stock.list r.now };

    ghost short = { λ r. S.Stock.short r.now };

    fn len(&self) -> usize {
        S::len(*self)
    }

    fn get(&self, place: usize) -> Option<GroundAtom> {
        S::get(*self, place)
    }

    fn contains(&self, atom: &GroundAtom) -> bool {
        S::contains(*self, atom)
    }
}

impl<'b, S: Shelf> Shelf for &'b mut S {
    ghost free = { λ r. S.Shelf.free r.now };

    fn free_count(&self) -> usize {
        S::free_count(*self)
    }

    fn put(&mut self, atom: GroundAtom) -> Result<Taken, Full>
        ensures puts { Puts (S.Stock.list self.old.now) (S.Shelf.free self.old.now) atom result (S.Stock.list self.new.now) (S.Shelf.free self.new.now) }
        ensures full { OnErr result (self.new ≡ self.old) }
        ensures lender { self.new.ghost_name ≡ self.old.ghost_name }
    {
        S::put(*self, atom)
    }
}
