//! The parts of a sentence.

/// The part of a sentence that an atom stands in.
#[derive(Clone, Copy, PartialEq, Eq, Debug)]
pub(crate) enum Part {
    /// Before the semicolon.
    Body,
    /// After it.
    Head,
}
