//! What an overlay answers and takes in.
ghost use Rattle.std.specs.Prelude.{◌≡◌, ◌+◌, ◌<◌, [], ◌∷◌, ◌++◌, length, map, OnErr};
ghost use Rattle.shelves.specs.Puts.{Puts};
ghost use Rattle.shelves.specs.Rows.{atom_of};
ghost use Rattle.shelves.specs.declared.taken.Taken.TheVariants.{At};
ghost use Rattle.overlays.specs.Stacked.{stacked, stacked_short, spare, Owned, Lowers};

use crate::overlay::{NotLowered, Overlay};
use atoms::atom::GroundAtom;
use shelves::record::Record;
use shelves::rows::{at, front, stands};
use shelves::stock::{Shelf, Stock};
use shelves::taken::{Full, Taken};

impl<S: Shelf> Overlay<S> {
    /// Empties the overlay. The shelf below stays as it is.
    pub fn clear(&mut self)
        ensures below { self.new.below ≡ self.old.below }
        ensures empty { self.new.own.items ≡ [] }
        ensures list { stacked S.Stock.list self.new ≡ S.Stock.list self.old.below }
    {
        self.own.clear();
    }

    /// Puts an atom on the shelf below, while the overlay has none of its own.
    pub fn put_below(&mut self, atom: GroundAtom) -> Result<Taken, NotLowered>
        ensures { Lowers S.Stock.list S.Shelf.free self.old atom result self.new }
    {
        let own = self.own_len();
        if own > 0 {
            return Err(NotLowered::NotEmpty { own });
        }
        Ok(self.below.put(atom)?)
    }

    /// Those of its own that count: what the cut at 1,000,000 leaves.
    fn seen(&self) -> &[Record]
        ensures { stacked S.Stock.list self.now ≡ S.Stock.list self.now.below ++ map atom_of result.now }
    {
        front(&self.own, 1_000_000 - self.below.len())
    }

    /// Adds an atom to its own, and says at which place it stands.
    fn push(&mut self, atom: GroundAtom) -> usize
        requires { 0 < spare S.Stock.list self.old }
        ensures place { result ≡ length (stacked S.Stock.list self.old) }
        ensures list { stacked S.Stock.list self.new ≡ stacked S.Stock.list self.old ++ atom ∷ [] }
        ensures free { spare S.Stock.list self.new + 1 ≡ spare S.Stock.list self.old }
        ensures below { self.new.below ≡ self.old.below }
        ensures own { Owned self.old.own atom (Ok (At result)) self.new.own }
    {
        let place = Self::len(self);
        self.own.push(Record { atom });
        place
    }
}

impl<S: Shelf> Stock for Overlay<S> {
    ghost list = { stacked S.Stock.list };

    ghost short = { stacked_short S.Stock.list };

    fn len(&self) -> usize {
        self.below.len() + self.seen().len()
    }

    fn get(&self, place: usize) -> Option<GroundAtom> {
        if place < self.below.len() {
            self.below.get(place)
        } else {
            at(self.seen(), place - self.below.len())
        }
    }

    fn contains(&self, atom: &GroundAtom) -> bool {
        self.below.contains(atom) || stands(self.seen(), atom)
    }
}

impl<S: Shelf> Shelf for Overlay<S> {
    ghost free = { spare S.Stock.list };

    #[tactic(auto, using(crate::specs::Stacked::stacked_short))]
    fn free_count(&self) -> usize {
        self.own.remaining_capacity().min(1_000_000 - self.len())
    }

    fn put(&mut self, atom: GroundAtom) -> Result<Taken, Full>
        ensures puts { Puts (stacked S.Stock.list self.old) (spare S.Stock.list self.old) atom result (stacked S.Stock.list self.new) (spare S.Stock.list self.new) }
        ensures full { OnErr result (self.new ≡ self.old) }
        ensures below { self.new.below ≡ self.old.below }
        ensures own { Owned self.old.own atom result self.new.own }
    {
        if Self::contains(self, &atom) {
            return Ok(Taken::Already);
        }
        if Self::free_count(self) == 0 {
            return Err(Full);
        }
        Ok(Taken::At(self.push(atom)))
    }
}
