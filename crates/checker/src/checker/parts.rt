//! The parts of calls: whose slip it is, what goes on the shelf and into the overlay, how a check ends.
ghost use Rattle.std.specs.Prelude.{◌≡◌, ◌+◌, ◌≤◌, ◌≢◌, IfSome, OnErr};
ghost use Rattle.atoms.specs.Meaning.{atom_meant};
ghost use Rattle.book.specs.Theory.{constraints_of};
ghost use Rattle.checker.specs.Parts.{FactPut, AtomPut, Owns, Closed};
ghost use Rattle.checker.specs.Shapes.{Known, query_of};
ghost use Rattle.checker.specs.Views.{Left, view};
ghost use Rattle.declarations.specs.Bodies.{patterns_meant};
ghost use Rattle.protocol.specs.Calls.{Asks};
ghost use Rattle.protocol.specs.States.{anew};
ghost use Rattle.semantics.specs.Subject.{numbered};
ghost use Rattle.std.specs.Option.{option_map};

use crate::checker::Checker;
use crate::kind::Kind;
use crate::slip::{Returned, Slip};
use atoms::atom::GroundAtom;
use calls::answer::{Check, Verdict};
use declarations::patterns::Patterns;
use refusals::refusal::Refusal;
use shelves::stock::Shelf;
use shelves::taken::{Full, Taken};

impl<S: Shelf> Checker<S> {
    /// The query of the open check, if the slip is its own.
    pub(crate) fn own<K: Kind>(&self, slip: &Slip<K>) -> Result<usize, Refusal>
        ensures { Owns K.check_of (view S.Stock.list S.Shelf.free self.now) slip.now result }
    {
        self.check
            .and_then(|check| K::query(check))
            .filter(|_| slip.number() == self.number)
            .ok_or(Refusal::ForeignSlip)
    }

    /// The patterns of a query that is there.
    pub(crate) fn patterns_of(&self, query: usize) -> &Patterns
        requires { Known self.now.book query }
        ensures { Asks (view S.Stock.list S.Shelf.free self.now) query (patterns_meant result.now) }
    {
        self.book.query(query).unwrap()
    }

    /// The patterns of the constraint of that number, if there is one.
    pub(crate) fn constraint_of(&self, constraint: usize) -> Option<&Patterns>
        ensures { option_map (λ p. patterns_meant p.now) result ≡ numbered (constraints_of self.now.book) constraint }
    {
        self.book.constraint(constraint)
    }

    /// Puts an atom on the shelf, while no check is open.
    pub(crate) fn put_fact(&mut self, atom: GroundAtom) -> Result<Taken, Full>
        requires { self.old.check ≡ None }
        ensures put { FactPut (view S.Stock.list S.Shelf.free self.old) (atom_meant atom) result (view S.Stock.list S.Shelf.free self.new) }
        ensures full { OnErr result (self.new ≡ self.old) }
        ensures own { self.new.pile.own ≡ self.old.pile.own }
    {
        self.pile.put_below(atom).or(Err(Full))
    }

    /// Puts an atom into the overlay of the open check; with a new one so many nulls are issued.
    pub(crate) fn put_atom(&mut self, atom: GroundAtom, nulls: u32) -> Result<Taken, Full>
        requires open { self.old.check ≢ None }
        requires few { nulls ≤ self.old.nulls + 4 }
        ensures put { AtomPut (view S.Stock.list S.Shelf.free self.old) (atom_meant atom) nulls result (view S.Stock.list S.Shelf.free self.new) }
        ensures full { OnErr result (self.new ≡ self.old) }
        ensures below { self.new.pile.below ≡ self.old.pile.below }
    {
        let taken = self.pile.put(atom)?;
        if let Taken::At(_) = taken {
            self.nulls = nulls;
        }
        Ok(taken)
    }

    /// Empties the overlay and goes on with this check, or with none.
    pub(crate) fn restart(&mut self, check: Option<Check>)
        requires { IfSome check (λ k. Known self.old.book (query_of k)) }
        ensures state { (view S.Stock.list S.Shelf.free self.new) ≡ anew (view S.Stock.list S.Shelf.free self.old) check }
        ensures below { self.new.pile.below ≡ self.old.pile.below }
    {
        self.pile.clear();
        self.check = check;
        self.nulls = 0;
    }

    /// Ends the check with the verdict, which spends the slip; a refusal hands it back.
    pub(crate) fn close<K>(
        &mut self,
        slip: Slip<K>,
        judged: Result<Verdict, Refusal>,
    ) -> Result<Verdict, Returned<Slip<K>>>
        ensures closed { Closed (view S.Stock.list S.Shelf.free self.old) slip judged result (view S.Stock.list S.Shelf.free self.new) }
        ensures left { Left self.old result self.new }
    {
        match judged {
            Ok(verdict) => {
                slip.spend();
                self.restart(None);
                Ok(verdict)
            }
            Err(refusal) => Err(Returned { refusal, slip }),
        }
    }
}
