//! Whether places show patterns.
ghost use Rattle.checker.specs.Parts.{ShowJudged};
ghost use Rattle.checker.specs.Views.{view};
ghost use Rattle.declarations.specs.Bodies.{patterns_meant};

use crate::checker::Checker;
use calls::places::Places;
use declarations::patterns::Patterns;
use matching::places::fit_places;
use refusals::refusal::Refusal;
use shelves::stock::Shelf;

impl<S: Shelf> Checker<S> {
    /// Refuses where the places do not show the patterns.
    pub(crate) fn show(&self, patterns: &Patterns, places: Places) -> Result<(), Refusal>
        ensures { ShowJudged (view S.Stock.list S.Shelf.free self.now).pile (patterns_meant patterns.now) places result }
    {
        let patterns = patterns.as_slice();
        if places.count() != patterns.len() {
            return Err(Refusal::WrongNumberOfPlaces {
                places: places.count(),
            });
        }
        fit_places(&self.pile, patterns, places.as_slice())?;
        Ok(())
    }
}
