//! Rows of records.
ghost use Rattle.std.specs.Prelude.{◌≡◌, map, take, Contains, Decides, slice_get};
ghost use Rattle.shelves.specs.Rows.{atom_of};

use crate::record::Record;
use atoms::atom::GroundAtom;
use exact::equality::same;

/// The first records, of which so many count.
pub fn front(rows: &[Record], used: usize) -> &[Record]
    ensures { result.now ≡ take used rows.now }
{
    rows.get(..used).unwrap_or(rows)
}

/// Whether the atom stands in one of the records.
pub fn stands(rows: &[Record], atom: &GroundAtom) -> bool
    ensures { Decides result (Contains (map atom_of rows.now) atom.now) }
{
    rows.iter().any(|row| same(&row.atom, atom))
}

/// The atom of the record at that place, if there is one.
pub fn at(rows: &[Record], place: usize) -> Option<GroundAtom>
    ensures { result ≡ slice_get (map atom_of rows.now) place }
{
    rows.get(place).map(|row| row.atom)
}
