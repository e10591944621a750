//! Calls that were made, with their answers.
use crate::answer::Verdict;
use crate::places::Places;
use reading::raw::RawAtom;
use refusals::refusal::Refusal;
use shelves::taken::Taken;

/// A call with its answer. A slip is told by the number that it bears.
#[derive(Clone, Copy)]
pub enum Event {
    Lodge(RawAtom, Result<Taken, Refusal>),
    OpenDerivation(usize, Result<(), Refusal>),
    OpenModel(usize, Result<(), Refusal>),
    Step {
        slip: u16,
        rule: usize,
        place: usize,
        answer: Result<Taken, Refusal>,
    },
    Add {
        slip: u16,
        atom: RawAtom,
        answer: Result<Taken, Refusal>,
    },
    Claim {
        slip: u16,
        places: Places,
        answer: Result<Verdict, Refusal>,
    },
    Clash {
        slip: u16,
        constraint: usize,
        places: Places,
        answer: Result<Verdict, Refusal>,
    },
    Refute {
        slip: u16,
        answer: Result<Verdict, Refusal>,
    },
    StrikeDerivation {
        slip: u16,
        answer: Result<(), Refusal>,
    },
    StrikeModel {
        slip: u16,
        answer: Result<(), Refusal>,
    },
    /// No call was made: the slot of the one that was asked for has no slip of its kind.
    NoSlip,
}
