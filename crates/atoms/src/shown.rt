//! How atoms are shown: the predicate, and each term after a space.
ghost use Rattle.atoms.specs.Shown.{atom_shown};

use crate::atom::Atom;
use std::fmt;

impl<T: fmt::Display> fmt::Display for Atom<T> {
    ghost output = { atom_shown T.output };

    fn fmt<W: fmt::Write>(&self, f: &mut fmt::Formatter<W>) -> fmt::Result {
        self.predicate.fmt(f)?;
        for term in self.terms.as_slice() {
            write!(f, " {term}")?;
        }
        Ok(())
    }
}
