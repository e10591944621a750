//! What a shelf answers to an atom.
ghost use Rattle.shelves.specs.Shown.{taken_shown};
ghost use Rattle.std.specs.Prelude.{Some, codes};

use std::error::Error;
use std::fmt;

/// What became of an atom that was to be taken in, and could be.
#[derive(Clone, Copy, PartialEq, Eq, Debug)]
pub enum Taken {
    /// It stands there already.
    Already,
    /// It is new, and stands at this place now.
    At(usize),
}

impl fmt::Display for Taken {
    ghost output = { λ t. Some (taken_shown t) };

    fn fmt<W: fmt::Write>(&self, f: &mut fmt::Formatter<W>) -> fmt::Result {
        match self {
            Taken::Already => write!(f, "already"),
            Taken::At(place) => write!(f, "at {place}"),
        }
    }
}

/// The atom is new, and there is no room.
#[derive(Clone, Copy, PartialEq, Eq, Debug)]
pub struct Full;

impl fmt::Display for Full {
    ghost output = { λ _. Some (codes "full") };

    fn fmt<W: fmt::Write>(&self, f: &mut fmt::Formatter<W>) -> fmt::Result {
        f.write_str("full")
    }
}

impl Error for Full {}
