//! Making rules and reading them.
ghost use Rattle.std.specs.Prelude.{◌≡◌, ℕ, length, Some};
ghost use Rattle.declarations.specs.Arities.{arities_of};
ghost use Rattle.declarations.specs.Checked.{Checked};
ghost use Rattle.reading.specs.Written.{slot_written};
ghost use Rattle.declarations.specs.Bodies.{patterns_meant};
ghost use Rattle.rules.specs.Rules.{MakesRule, RuleChecked};
ghost use Rattle.semantics.specs.Subject.{Guards};
ghost use Rattle.std.specs.List.{slice_get};

use crate::rule::Rule;
use crate::rule::covering::find_guard;
use atoms::atom::Pattern;
use declarations::declarations::Declarations;
use declarations::patterns::Patterns;
use reading::raw::RawAtom;
use refusals::refusal::Refusal;

impl Rule {
    /// The rule of this body and head, if the body has a guard.
    pub fn new(body: Patterns, head: Pattern) -> Option<Rule>
        ensures { MakesRule body head result }
    {
        let guard = find_guard(&body)?;
        // A row's length is known where it is asked for, and the type of rules says that heads are short.
        let _ = head.terms.len();
        Some(Rule { body, guard, head })
    }

    pub fn body(&self) -> &[Pattern]
        ensures { result.now ≡ self.now.body }
    {
        self.body.as_slice()
    }

    pub fn head(&self) -> &Pattern
        ensures { result.now ≡ self.now.head }
    {
        &self.head
    }

    /// The index of the guard in the body.
    pub fn guard(&self) -> usize
        ensures value { result ≡ self.now.guard }
        ensures guards { Guards (patterns_meant self.now.body) result }
    {
        self.index()
    }

    /// The guard's index as it is kept.
    fn index(&self) -> usize
        ensures { result ≡ self.now.guard }
    {
        self.guard
    }

    #[tactic(auto, using(crate::proofs::Scanning::guard_within, crate::proofs::Scanning::guard_read))]
    pub fn guard_pattern(&self) -> &Pattern
        ensures { slice_get self.now.body self.now.guard ≡ Some result.now }
    {
        &self.body.as_slice()[self.guard]
    }
}

/// The head that is written. Its index comes after those of the body.
fn check_head(
    declarations: &Declarations,
    body: &[RawAtom],
    head: &RawAtom,
) -> Result<Pattern, Refusal>
    ensures { Checked slot_written (arities_of declarations.now) (length body.now) head.now result }
{
    declarations.check(body.len(), head)
}

/// The rule that is written. The head is checked last.
pub fn check_rule(
    declarations: &Declarations,
    body: &[RawAtom],
    head: &RawAtom,
) -> Result<Rule, Refusal>
    ensures { RuleChecked (arities_of declarations.now) body.now head.now result }
{
    let patterns = declarations.check_patterns(body)?;
    let pattern = check_head(declarations, body, head)?;
    Rule::new(patterns, pattern).ok_or(Refusal::NoGuard)
}
