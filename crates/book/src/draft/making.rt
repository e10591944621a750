//! Writing a draft and sealing it.
ghost use Rattle.declarations.specs.Arities.{arities_of};
ghost use Rattle.declarations.specs.Bodies.{PatternsChecked};
ghost use Rattle.book.specs.Drafts.{Empty, Judged, DeclareDone, RuleDone, ConstraintDone, QueryDone};
ghost use Rattle.rules.specs.Rules.{RuleChecked};
ghost use Rattle.book.specs.Tables.{Full};
ghost use Rattle.std.specs.Prelude.{◌≡◌, IfOk};

use crate::book::Book;
use crate::draft::Draft;
use crate::table::Table;
use declarations::declarations::Declarations;
use declarations::patterns::Patterns;
use reading::raw::RawAtom;
use refusals::refusal::Refusal;
use rules::rule::{Rule, check_rule};
use std::alloc::{AllocError, Global};

impl Draft {
    /// An empty draft. All its memory is reserved here, so that no later call fails for want of it.
    pub fn new(heap: Global) -> Result<Draft, AllocError>
        ensures { IfOk result Empty }
    {
        let rules = Table::new(heap)?;
        let constraints = Table::new(heap)?;
        let queries = Table::new(heap)?;
        let book = Book {
            declarations: Declarations::new(),
            rules,
            constraints,
            queries,
        };
        Ok(Draft { book })
    }

    /// Declares a predicate of that arity, and answers its number.
    pub fn declare(&mut self, arity: usize) -> Result<usize, Refusal>
        ensures { DeclareDone self.old arity result self.new }
    {
        self.book.declarations.declare(arity)
    }

    /// Writes down a rule, and answers its number.
    pub fn rule(&mut self, body: &[RawAtom], head: &RawAtom) -> Result<usize, Refusal>
        ensures { RuleDone self.old body.now head.now result self.new }
    {
        let rule = self.judge_rule(body, head)?;
        Ok(self.book.rules.add(rule))
    }

    /// The rule that is written, if there is room for it.
    fn judge_rule(&self, body: &[RawAtom], head: &RawAtom) -> Result<Rule, Refusal>
        ensures { Judged (Full 64 self.now.book.rules) (RuleChecked (arities_of self.now.book.declarations) body.now head.now) result }
    {
        self.book.rules.check_room()?;
        check_rule(&self.book.declarations, body, head)
    }

    /// Writes down a constraint, and answers its number.
    pub fn constraint(&mut self, patterns: &[RawAtom]) -> Result<usize, Refusal>
        ensures { ConstraintDone self.old patterns.now result self.new }
    {
        let constraint = judge(&self.book.declarations, &self.book.constraints, patterns)?;
        Ok(self.book.constraints.add(constraint))
    }

    /// Writes down a query, and answers its number.
    pub fn query(&mut self, patterns: &[RawAtom]) -> Result<usize, Refusal>
        ensures { QueryDone self.old patterns.now result self.new }
    {
        let query = judge(&self.book.declarations, &self.book.queries, patterns)?;
        Ok(self.book.queries.add(query))
    }

    /// The book of what was written down.
    pub fn seal(self) -> Book
        ensures { result ≡ self.book }
    {
        let Draft { book } = self;
        book
    }
}

/// The patterns that are written, if the table has room for them.
fn judge<const N: usize>(
    declarations: &Declarations,
    table: &Table<Patterns, N>,
    patterns: &[RawAtom],
) -> Result<Patterns, Refusal>
    ensures { Judged (Full N table.now) (PatternsChecked (arities_of declarations.now) patterns.now) result }
{
    table.check_room()?;
    declarations.check_patterns(patterns)
}
