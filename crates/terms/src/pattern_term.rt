//! The terms of patterns.
use crate::constant::Constant;
use crate::variable::Variable;

/// A term of a pattern. One enum generic in its second sort would serve ground terms too, and have no word for either.
#[derive(Clone, Copy, PartialEq, Eq, Debug)]
pub enum PatternTerm {
    Constant(Constant),
    Variable(Variable),
}
