//! The overlay: a shelf on a shelf.
ghost use Rattle.std.specs.Prelude.{◌≡◌, ◌-◌, ◌≤◌, min, [], length};

use arrayvec::ArrayVec;
use shelves::record::Record;
use shelves::stock::{Shelf, Stock};
use shelves::taken::Full;
use std::error::Error;
use std::fmt;

mod takes;

/// A shelf on the shelf below, with up to 256 atoms of its own.
#[derive(Drop)]
pub struct Overlay<S> {
    below: S,
    own: ArrayVec<Record, 256>,
    ghost few: { length own.items ≤ 256 },
}

impl<S: Shelf> Overlay<S> {
    ghost use Rattle.overlays.specs.Stacked.{stacked, spare};

    /// An empty overlay.
    pub fn new(below: S) -> Overlay<S>
        ensures below { result.below ≡ below }
        ensures empty { result.own.items ≡ [] }
        ensures list { stacked S.Stock.list result ≡ S.Stock.list below }
        ensures free { spare S.Stock.list result ≡ min 256 (1000000 - length (S.Stock.list below)) }
    {
        Overlay {
            below,
            own: ArrayVec::new(),
        }
    }

    /// Gives the shelf below back.
    pub fn release(self) -> S
        ensures { result ≡ self.below }
    {
        self.below
    }

    /// How many atoms of its own it has.
    pub fn own_len(&self) -> usize
        ensures value { result ≡ length self.now.own.items }
        ensures bound { result ≤ 256 }
    {
        self.own.len()
    }

    /// The shelf below.
    pub fn below(&self) -> &S
        ensures { result.now ≡ self.now.below }
    {
        &self.below
    }
}

/// Why nothing went on the shelf below an overlay.
#[derive(Clone, Copy, PartialEq, Eq, Debug)]
pub enum NotLowered {
    /// The overlay has so many atoms of its own.
    NotEmpty { own: usize },
    /// The atom is new, and there is no room below.
    Full,
}

impl From<Full> for NotLowered {
    ghost use Rattle.overlays.specs.declared.overlay.NotLowered.TheVariants.{Full};

    ghost from_gives = { λ _ e. e ≡ Full };

    fn from(_full: Full) -> NotLowered {
        NotLowered::Full
    }
}

impl fmt::Display for NotLowered {
    ghost use Rattle.std.specs.Prelude.{Some};
    ghost use Rattle.overlays.specs.Shown.{not_lowered_shown};

    ghost output = { λ e. Some (not_lowered_shown e) };

    fn fmt<W: fmt::Write>(&self, f: &mut fmt::Formatter<W>) -> fmt::Result {
        match self {
            NotLowered::NotEmpty { own } => write!(f, "the overlay has {own} of its own"),
            NotLowered::Full => f.write_str("full"),
        }
    }
}

impl Error for NotLowered {}
