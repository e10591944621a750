//! Places as a caller names them.
use short_rows::first_four::FirstFour;

/// Any number of places, none included. Only the first four are kept, beside the number of all: no query or constraint
/// has more patterns, so a longer row is refused by its number alone.
pub type Places = FirstFour<usize>;
