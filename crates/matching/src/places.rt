//! Fitting several patterns at named places.
ghost use Rattle.fitting.specs.Bindings.{bound, bound_or};
ghost use Rattle.matching.specs.Places.{AtomAt, FittedAt, Placed};
ghost use Rattle.matching.specs.Searches.{pile, patterns_meant};
ghost use Rattle.atoms.specs.Meaning.{pattern_meant};

use atoms::atom::{GroundAtom, Pattern};
use fitting::binding::{Binding, unbound};
use fitting::fit::fit;
use refusals::refusal::Refusal;
use shelves::stock::Stock;

/// The atom at the place that is named for the pattern of that index.
fn atom_at<S: Stock>(stock: &S, index: usize, place: usize) -> Result<GroundAtom, Refusal>
    ensures { AtomAt (S.Stock.list stock.now) index place result }
{
    stock.get(place).ok_or(Refusal::PlacePastPile {
        pattern: index,
        place,
    })
}

/// The binding, extended so that the pattern of that index fits the atom at the place.
pub fn fit_at<S: Stock>(
    stock: &S,
    binding: Binding,
    index: usize,
    pattern: &Pattern,
    place: usize,
) -> Result<Binding, Refusal>
    ensures { FittedAt (pile (S.Stock.list stock.now)) (bound binding) index (pattern_meant pattern.now) place (bound_or result) }
{
    let atom = atom_at(stock, index, place)?;
    fit(binding, pattern, &atom).ok_or(Refusal::AtomDoesNotFit {
        pattern: index,
        place,
    })
}

/// The one binding under which each pattern fits the atom at its place; else the least pattern index that fails.
pub fn fit_places<S: Stock>(
    stock: &S,
    patterns: &[Pattern],
    places: &[usize],
) -> Result<Binding, Refusal>
    ensures { Placed (pile (S.Stock.list stock.now)) (patterns_meant patterns.now) places.now (bound_or result) }
{
    if places.len() != patterns.len() {
        return Err(Refusal::WrongNumberOfPlaces {
            places: places.len(),
        });
    }
    let mut binding = unbound();
    // The index is the figure of the refusal and names the place; a zip would only add a second pair.
    for (index, pattern) in patterns.iter().enumerate() {
        binding = fit_at(stock, binding, index, pattern, places[index])?;
    }
    Ok(binding)
}
