//! Reading a line of each kind.
ghost use Rattle.kinds.specs.Kinds.{SmallNumber, fact_of, arity_of};
ghost use Rattle.kinds.specs.Lines.{fact_text, GoodFact, atoms_text, GoodAtoms, rule_line_text, GoodRuleLine, request_text, GoodRequest};
ghost use Rattle.std.specs.Prelude.{◌≡◌, decimal};
ghost use Rattle.words.specs.Reads.{Reads, IfRead};

use crate::parts::{bare_request, plain, request_with, rule_of, sole};
use crate::request::{Request, RuleLine};
use lines::atom::WrittenAtom;
use lines::sentence::read_sentence;
use reading::raw::RawAtom;
use short_rows::row::Row;
use std::alloc::Global;
use words::error::ReadError;

/// The one atom of a line.
fn atom(heap: Global, line: &[u8]) -> Result<WrittenAtom, ReadError>
    ensures { IfRead result (λ o. o ≡ fact_of line.now) }
{
    sole(read_sentence(heap, line)?).ok_or(ReadError::Broken)
}

/// The fact of a line.
pub fn fact(heap: Global, line: &[u8]) -> Result<RawAtom, ReadError>
    ensures { IfRead result (λ o. Reads GoodFact fact_text line.now o) }
{
    atom(heap, line).map(RawAtom::from)
}

/// The arity of a line.
pub fn arity(heap: Global, line: &[u8]) -> Result<usize, ReadError>
    ensures same { IfRead result (λ o. o ≡ arity_of line.now) }
    ensures reads { IfRead result (λ o. Reads SmallNumber decimal line.now o) }
{
    let atom = atom(heap, line)?;
    if atom.terms().is_empty() {
        Ok(atom.predicate() as usize)
    } else {
        Err(ReadError::Broken)
    }
}

/// The atoms of a constraint or a query.
pub fn list(heap: Global, line: &[u8]) -> Result<Row<RawAtom>, ReadError>
    ensures { IfRead result (λ o. Reads GoodAtoms atoms_text line.now o) }
{
    plain(read_sentence(heap, line)?).ok_or(ReadError::Broken)
}

/// The rule of a line.
pub fn rule(heap: Global, line: &[u8]) -> Result<RuleLine, ReadError>
    ensures { IfRead result (λ o. Reads GoodRuleLine rule_line_text line.now o) }
{
    rule_of(read_sentence(heap, line)?).ok_or(ReadError::Broken)
}

/// The request of a line: its letter alone, or letter, space and the rest.
pub fn request(heap: Global, line: &[u8]) -> Result<Request, ReadError>
    ensures { IfRead result (λ o. Reads GoodRequest request_text line.now o) }
{
    match line {
        [letter] => bare_request(char::from(*letter)).ok_or(ReadError::Broken),
        [letter, b' ', rest @ ..] => request_with(heap, char::from(*letter), atom(heap, rest)?),
        _ => Err(ReadError::Broken),
    }
}
