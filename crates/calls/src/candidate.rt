//! Candidates for models.
ghost use Rattle.semantics.specs.Subject.{Candidate as property};

/// Any property of atoms over whole numbers. There is nothing to run: a call that is generic in one is proved once for
/// every property there is.
pub trait Candidate {
    ghost has: { property };
}
