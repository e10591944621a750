//! The equality of atoms tells any two apart where that of their terms does.
ghost use Rattle.atoms.specs.Exactness.{atom_exact};

use crate::atom::Atom;
use exact::equality::ExactEq;

impl<T: ExactEq> ExactEq for Atom<T> {
    ghost exact = { atom_exact T.ExactEq.exact };
}
