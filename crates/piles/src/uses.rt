//! Code over any shelf, and over a pile of them.
ghost use Rattle.std.specs.Prelude.{◌≡◌, true, Ok, Contains, Decides};
ghost use Rattle.piles.specs.Ensured.{Ensured};
ghost use Rattle.flat_shelf.specs.Flat.{written};
ghost use Rattle.shelves.specs.declared.taken.Taken.TheVariants.{At};

use atoms::atom::GroundAtom;
use flat_shelf::flat::FlatShelf;
use overlays::overlay::Overlay;
use shelves::record::Record;
use shelves::stock::{Shelf, Stock};
use shelves::taken::{Full, Taken};

/// Puts an atom that is new where there is room, and says whether it stands on the shelf then.
pub fn ensure<S: Shelf>(shelf: &mut S, atom: GroundAtom) -> bool
    ensures answer { Decides result (Contains (S.Stock.list shelf.new) atom) }
    ensures list { Ensured (S.Stock.list shelf.old) (S.Shelf.free shelf.old) atom (S.Stock.list shelf.new) (S.Shelf.free shelf.new) }
{
    shelf.put(atom).is_ok()
}

/// Two overlays on a flat shelf: there is always room for a first atom.
fn piled(records: &mut [Record], atom: GroundAtom) -> bool
    ensures { result ≡ true }
{
    let mut pile = Overlay::new(Overlay::new(FlatShelf::new(records)));
    ensure(&mut pile, atom)
}

/// The same pile, with its lower overlay lent: the first atom goes to place 0.
fn piled_first(records: &mut [Record], atom: GroundAtom) -> Result<Taken, Full>
    ensures { result ≡ Ok (At 0) }
{
    let mut lower = Overlay::new(FlatShelf::new(records));
    let mut upper = Overlay::new(&mut lower);
    upper.put(atom)
}

/// What a flat shelf takes in stands in the caller's records.
fn lodged(records: &mut [Record], atom: GroundAtom) -> Result<Taken, Full>
    ensures { records.new ≡ written result records.old atom }
{
    let mut flat = FlatShelf::new(records);
    flat.put(atom)
}

/// What an overlay takes in does not: the records come back as they were lent.
fn untouched<'a>(records: &'a mut [Record], atom: GroundAtom) -> &'a mut [Record]
    ensures lender { result.ghost_name ≡ records.entry.ghost_name }
    ensures memory { result.now ≡ records.old }
{
    let mut overlay = Overlay::new(FlatShelf::new(records));
    let _ = overlay.put(atom);
    overlay.release().into_records()
}
