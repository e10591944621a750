//! What is written down for good.
ghost use Rattle.declarations.specs.Arities.{arity_value, arities_of};
ghost use Rattle.semantics.specs.Subject.{numbered};
ghost use Rattle.declarations.specs.Checked.{Checked};
ghost use Rattle.book.specs.Tables.{entries};
ghost use Rattle.std.specs.Option.{option_map};
ghost use Rattle.std.specs.Prelude.{◌≡◌, length};

use crate::table::Table;
use atoms::atom::Atom;
use declarations::arity::Arity;
use declarations::declarations::Declarations;
use declarations::patterns::Patterns;
use reading::raw::RawAtom;
use reading::sort::Sort;
use refusals::refusal::Refusal;
use rules::rule::Rule;

/// The declared predicates with the rules, constraints and queries over them. It never changes.
#[derive(Drop)]
pub struct Book {
    pub(crate) declarations: Declarations,
    pub(crate) rules: Table<Rule, 64>,
    pub(crate) constraints: Table<Patterns, 32>,
    pub(crate) queries: Table<Patterns, 16>,
}

impl Book {
    /// The arity of the predicate of that number, if it is declared.
    pub fn arity(&self, predicate: usize) -> Option<Arity>
        ensures { option_map arity_value result ≡ numbered (arities_of self.now.declarations) predicate }
    {
        self.declarations.arity(predicate)
    }

    /// The atom that is written, whose index among the atoms of a call is `index`.
    pub fn check<T: Sort>(&self, index: usize, raw: &RawAtom) -> Result<Atom<T>, Refusal>
        ensures { Checked T.Sort.written (arities_of self.now.declarations) index raw.now result }
    {
        self.declarations.check(index, raw)
    }

    /// The rule of that number, from 1.
    pub fn rule(&self, number: usize) -> Option<&Rule>
        ensures { option_map (λ x. x.now) result ≡ numbered (entries self.now.rules) number }
    {
        self.rules.get(number)
    }

    /// The constraint of that number, from 1.
    pub fn constraint(&self, number: usize) -> Option<&Patterns>
        ensures { option_map (λ x. x.now) result ≡ numbered (entries self.now.constraints) number }
    {
        self.constraints.get(number)
    }

    /// The query of that number, from 1.
    pub fn query(&self, number: usize) -> Option<&Patterns>
        ensures { option_map (λ x. x.now) result ≡ numbered (entries self.now.queries) number }
    {
        self.queries.get(number)
    }

    /// How many rules there are.
    pub fn rules(&self) -> usize
        ensures { result ≡ length (entries self.now.rules) }
    {
        self.rules.len()
    }

    /// How many constraints there are.
    pub fn constraints(&self) -> usize
        ensures { result ≡ length (entries self.now.constraints) }
    {
        self.constraints.len()
    }

    /// How many queries there are.
    pub fn queries(&self) -> usize
        ensures { result ≡ length (entries self.now.queries) }
    {
        self.queries.len()
    }

    /// The rules in order.
    pub fn all_rules(&self) -> &[Rule]
        ensures { result.now ≡ entries self.now.rules }
    {
        self.rules.as_slice()
    }

    /// The constraints in order.
    pub fn all_constraints(&self) -> &[Patterns]
        ensures { result.now ≡ entries self.now.constraints }
    {
        self.constraints.as_slice()
    }
}
