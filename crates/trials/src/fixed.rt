//! A full shelf with any atoms, repeats included.
ghost use Rattle.shelves.specs.Rows.{front};
ghost use Rattle.trials.specs.Short.{rows_short};

use atoms::atom::GroundAtom;
use shelves::record::Record;
use shelves::rows::{at, front, stands};
use shelves::stock::{Shelf, Stock};
use shelves::taken::{Full, Taken};

/// Of the records, the first 4,096 count.
#[derive(Clone, Copy)]
pub struct Fixed<'a> {
    pub records: &'a [Record],
}

impl<'a> Stock for Fixed<'a> {
    ghost list = { λ s. front 4096 s.records.now };

    ghost short = { λ s. rows_short s.records.now };

    fn len(&self) -> usize {
        front(self.records, 4096).len()
    }

    fn get(&self, place: usize) -> Option<GroundAtom> {
        at(front(self.records, 4096), place)
    }

    fn contains(&self, atom: &GroundAtom) -> bool {
        stands(front(self.records, 4096), atom)
    }
}

impl<'a> Shelf for Fixed<'a> {
    ghost free = { λ _. 0 };

    fn free_count(&self) -> usize {
        0
    }

    fn put(&mut self, atom: GroundAtom) -> Result<Taken, Full> {
        if Self::contains(self, &atom) {
            Ok(Taken::Already)
        } else {
            Err(Full)
        }
    }
}
