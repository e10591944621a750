//! Atoms while they are read.
ghost use Rattle.std.specs.Prelude.{◌≡◌, ◌≤◌, length};
ghost use Rattle.lines.specs.Atoms.{told, begins, extends, takes};

use reading::raw::{RawAtom, RawTerm};
use short_rows::row::Row;
use std::marker::Model;

/// An atom as a line writes it: any predicate number, and at most four terms of any sort and number. A clause
/// sees the two.
#[derive(Clone, Copy, Debug)]
pub struct WrittenAtom {
    predicate: u32,
    terms: Option<Row<RawTerm>>,
}

impl Model for WrittenAtom {
    ghost use Rattle.lines.specs.Atoms.{Said};

    ghost Value = { Said };

    ghost use Rattle.lines.specs.Written.{seen, Kept, unseen, unseen_seen};

    ghost view = { seen };

    ghost invariant = { Kept };

    ghost inverse = { unseen };

    ghost inverse_ok = { unseen_seen };
}

impl WrittenAtom {
    fn new(predicate: u32) -> WrittenAtom
        ensures { result ≡ begins predicate }
    {
        WrittenAtom {
            predicate,
            terms: None,
        }
    }

    /// With one term more; none where it has four.
    fn with(self, term: RawTerm) -> Option<WrittenAtom>
        ensures { result ≡ extends self term }
    {
        let terms = match self.terms {
            Some(row) => row.push(term)?,
            None => Row::one(term),
        };
        Some(WrittenAtom {
            predicate: self.predicate,
            terms: Some(terms),
        })
    }

    /// The number that it begins with.
    pub fn predicate(&self) -> u32
        ensures { result ≡ self.now.predicate }
    {
        self.predicate
    }

    /// The terms after it.
    pub fn terms(&self) -> &[RawTerm]
        ensures value { result.now ≡ self.now.terms }
        ensures few { length result.now ≤ 4 }
    {
        match &self.terms {
            Some(row) => row.as_slice(),
            None => &[],
        }
    }
}

/// The same, as an atom of a caller.
impl From<WrittenAtom> for RawAtom {
    ghost from_gives = { λ atom raw. (told raw ≡ atom) × (raw.terms.count ≤ 4) };

    fn from(atom: WrittenAtom) -> RawAtom {
        RawAtom::new(atom.predicate as usize, atom.terms())
    }
}

/// The atom that is begun, with one word more. An atom begins with a bare number.
pub(crate) fn take_word(begun: Option<WrittenAtom>, term: RawTerm) -> Option<WrittenAtom>
    ensures { result ≡ takes begun term }
{
    match (begun, term) {
        (Some(atom), _) => atom.with(term),
        (None, RawTerm::Constant(number)) => Some(WrittenAtom::new(number)),
        _ => None,
    }
}
