//! Facts as ground atoms.
ghost use Rattle.std.specs.Prelude.{◌≡◌, map};
ghost use Rattle.terms.specs.declared.term.Term.TheVariants.{Constant as fixed};

use crate::atom::{Atom, GroundAtom};
use terms::constant::Constant;
use terms::term::Term;

impl Atom<Constant> {
    /// The fact as a ground atom.
    #[tactic(auto, using(crate::proofs::Standing::fixed_each))]
    pub fn ground(&self) -> GroundAtom
        ensures predicate { result.predicate ≡ self.now.predicate }
        ensures terms { result.terms ≡ map fixed self.now.terms }
    {
        Atom {
            predicate: self.predicate,
            terms: self.terms.map(|constant| Term::Constant(constant)),
        }
    }
}
