//! Calls of a list.
use crate::places::Places;
use reading::raw::RawAtom;

/// A call to be made.
#[derive(Clone, Copy)]
pub enum Call {
    Lodge(RawAtom),
    OpenDerivation(usize),
    OpenModel(usize),
    /// A call under the slip in that slot of a pool of slips.
    Under { slot: usize, call: SlipCall },
}

/// A call that is made under a slip.
#[derive(Clone, Copy)]
pub enum SlipCall {
    Step { rule: usize, place: usize },
    Add(RawAtom),
    Claim(Places),
    Clash { constraint: usize, places: Places },
    Refute,
    Strike,
}
