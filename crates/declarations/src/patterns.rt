//! One to four patterns.
ghost use Rattle.declarations.specs.Arities.{arities_of};
ghost use Rattle.declarations.specs.Bodies.{PatternsChecked};

use crate::declarations::Declarations;
use atoms::atom::Pattern;
use reading::raw::RawAtom;
use refusals::refusal::Refusal;
use short_rows::row::Row;

/// One to four patterns, in order.
pub type Patterns = Row<Pattern>;

impl Declarations {
    /// The patterns that are written, one to four.
    #[tactic(auto, using(crate::proofs::Pairing::tries_checked))]
    pub fn check_patterns(&self, raws: &[RawAtom]) -> Result<Patterns, Refusal>
        ensures { PatternsChecked (arities_of self.now) raws.now result }
    {
        let Some(row) = Row::lent(raws) else {
            return Err(Refusal::WrongNumberOfPatterns {
                patterns: raws.len(),
            });
        };
        row.try_map(|index, raw| self.check(index, raw))
    }
}
