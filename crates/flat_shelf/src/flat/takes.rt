//! What the flat shelf answers and takes in.
ghost use Rattle.std.specs.Prelude.{◌≡◌, [], ◌∷◌, ◌++◌, ◌+◌, ◌<◌, min, length, slice_set, OnErr};
ghost use Rattle.shelves.specs.Puts.{Puts};
ghost use Rattle.flat_shelf.specs.Flat.{written, rows, room, rows_short};

use crate::flat::FlatShelf;
use atoms::atom::GroundAtom;
use shelves::record::Record;
use shelves::rows::{at, front, stands};
use shelves::stock::{Shelf, Stock};
use shelves::taken::{Full, Taken};

impl<'a> FlatShelf<'a> {
    /// Writes an atom into the next record, and says where.
    fn push(&mut self, atom: GroundAtom) -> usize
        requires { 0 < room self.old }
        ensures place { result ≡ length (rows self.old) }
        ensures list { rows self.new ≡ rows self.old ++ atom ∷ [] }
        ensures free { room self.new + 1 ≡ room self.old }
        ensures lender { self.new.records.ghost_name ≡ self.old.records.ghost_name }
        ensures memory { self.new.records.now ≡ slice_set self.old.records.now result (record { atom = atom }) }
    {
        let place = self.used;
        self.records[place] = Record { atom };
        self.used = place + 1;
        place
    }
}

impl<'a> Stock for FlatShelf<'a> {
    ghost list = { rows };

    ghost short = { rows_short };

    fn len(&self) -> usize {
        self.used
    }

    fn get(&self, place: usize) -> Option<GroundAtom> {
        at(front(self.records, self.used), place)
    }

    fn contains(&self, atom: &GroundAtom) -> bool {
        stands(front(self.records, self.used), atom)
    }
}

impl<'a> Shelf for FlatShelf<'a> {
    ghost free = { room };

    fn free_count(&self) -> usize {
        self.records.len().min(4096) - self.used
    }

    fn put(&mut self, atom: GroundAtom) -> Result<Taken, Full>
        ensures puts { Puts (rows self.old) (room self.old) atom result (rows self.new) (room self.new) }
        ensures full { OnErr result (self.new ≡ self.old) }
        ensures lender { self.new.records.ghost_name ≡ self.old.records.ghost_name }
        ensures memory { self.new.records.now ≡ written result self.old.records.now atom }
    {
        if Self::contains(self, &atom) {
            return Ok(Taken::Already);
        }
        if Self::free_count(self) == 0 {
            return Err(Full);
        }
        Ok(Taken::At(self.push(atom)))
    }
}
