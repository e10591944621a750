//! The terms of ground atoms.
use crate::constant::Constant;
use crate::null::Null;

/// A term of a ground atom.
#[derive(Clone, Copy, PartialEq, Eq, Debug)]
pub enum Term {
    Constant(Constant),
    Null(Null),
}
