//! A pool of slips, each in its slot.
use checker::slip::{DerivationSlip, ModelSlip};

/// A slip of either kind. It cannot be let go, as the slip cannot.
pub enum HeldSlip {
    Derivation(DerivationSlip),
    Model(ModelSlip),
}

/// A slip in its slot, if there is one.
pub type Slot = Option<HeldSlip>;
