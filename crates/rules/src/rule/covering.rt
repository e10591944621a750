//! Which pattern has every variable of a body.
ghost use Rattle.rules.specs.Covering.{slots_meant, slot_covered};
ghost use Rattle.rules.specs.Rules.{FindsGuard};
ghost use Rattle.semantics.specs.Computed.{covers as slots-cover, covers_all, guard};
ghost use Rattle.atoms.specs.Meaning.{pattern_meant};
ghost use Rattle.terms.specs.Meaning.{slot_meant};
ghost use Rattle.std.specs.Prelude.{◌≡◌, map};

use atoms::atom::Pattern;
use declarations::patterns::Patterns;
use terms::pattern_term::PatternTerm;

/// Whether the term is a constant, or a variable of the pattern.
fn covered(term: PatternTerm, pattern: &Pattern) -> bool
    ensures { result ≡ slot_covered (slot_meant term) (slots_meant pattern.now) }
{
    match term {
        PatternTerm::Constant(_) => true,
        PatternTerm::Variable(variable) => pattern.has(variable),
    }
}

/// Whether `pattern` has every variable of `other`.
fn covers(pattern: &Pattern, other: &Pattern) -> bool
    ensures { result ≡ slots-cover (slots_meant other.now) (slots_meant pattern.now) }
{
    other
        .terms
        .as_slice()
        .iter()
        .all(|term| covered(*term, pattern))
}

/// Whether `pattern` has every variable of the body.
fn covers_body(pattern: &Pattern, body: &[Pattern]) -> bool
    ensures { result ≡ covers_all (map pattern_meant body.now) (slots_meant pattern.now) }
{
    body.iter().all(|other| covers(pattern, other))
}

/// The index of the first pattern that has every variable of the body.
fn first_covering(body: &[Pattern]) -> Option<usize>
    ensures { result ≡ guard (map pattern_meant body.now) }
{
    body.iter().position(|pattern| covers_body(pattern, body))
}

/// The index of the guard of the body, if there is one.
pub(crate) fn find_guard(body: &Patterns) -> Option<usize>
    ensures { FindsGuard body.now result }
{
    first_covering(body.as_slice())
}
