//! The parts that the kinds of lines are made of.
ghost use Rattle.kinds.specs.Kinds.{sole_of, few_of, plain_of, rule_from, bare_of, numbers_of, numbered_of, asked_with};
ghost use Rattle.kinds.specs.Lines.{spelled, WholeList, ruled, WholeRule, asked, WholeRequest};
ghost use Rattle.lines.specs.Sentences.{sentence};
ghost use Rattle.std.specs.Prelude.{◌≡◌, IfOk, IfSome, option_and_then, vec_items};
ghost use Rattle.std.specs.Option.{option_map};
ghost use Rattle.words.specs.Reads.{IfRead};

use crate::request::{Request, RuleLine};
use calls::places::Places;
use lines::atom::WrittenAtom;
use lines::sentence::Sentence;
use reading::raw::{RawAtom, RawTerm};
use short_rows::row::Row;
use std::alloc::Global;
use words::error::ReadError;

/// The one atom of the sentence.
pub(crate) fn sole(s: Sentence) -> Option<WrittenAtom>
    ensures { result ≡ sole_of (sentence s) }
{
    match (s.head, s.body.as_slice()) {
        (None, [atom]) => Some(*atom),
        _ => None,
    }
}

/// The atoms before the head, one to four.
fn body_of(s: &Sentence) -> Option<Row<RawAtom>>
    ensures same { option_map spelled result ≡ few_of (sentence s.now).body }
    ensures whole { IfSome result WholeList }
{
    Some(Row::from_slice(s.body.as_slice())?.map(RawAtom::from))
}

/// One to four atoms, and no head.
pub(crate) fn plain(s: Sentence) -> Option<Row<RawAtom>>
    ensures same { option_map spelled result ≡ plain_of (sentence s) }
    ensures whole { IfSome result WholeList }
{
    match s.head {
        Some(_) => None,
        None => body_of(&s),
    }
}

/// One to four atoms, and a head.
pub(crate) fn rule_of(s: Sentence) -> Option<RuleLine>
    ensures same { option_map ruled result ≡ rule_from (sentence s) }
    ensures whole { IfSome result WholeRule }
{
    let body = body_of(&s)?;
    Some(RuleLine {
        body,
        head: s.head?.into(),
    })
}

/// A request that is a letter alone.
pub(crate) fn bare_request(letter: char) -> Option<Request>
    ensures same { option_map asked result ≡ bare_of letter }
    ensures whole { IfSome result WholeRequest }
{
    match letter {
        'R' => Some(Request::Refute),
        'K' => Some(Request::Strike),
        _ => None,
    }
}

/// The numbers of an atom whose words are all bare.
fn numbers(heap: Global, atom: &WrittenAtom) -> Result<Vec<usize>, ReadError>
    ensures { IfRead result (λ o. option_map vec_items o ≡ numbers_of atom.now) }
{
    let mut out = Vec::new(heap);
    out.push(atom.predicate() as usize)?;
    for term in atom.terms() {
        let RawTerm::Constant(number) = *term else {
            return Err(ReadError::Broken);
        };
        out.push(number as usize)?;
    }
    Ok(out)
}

/// A request that is a letter and numbers.
fn numbered_request(letter: char, numbers: &[usize]) -> Option<Request>
    ensures same { option_map asked result ≡ numbered_of letter numbers.now }
    ensures whole { IfSome result WholeRequest }
{
    match (letter, numbers) {
        ('O', [query]) => Some(Request::OpenDerivation(*query)),
        ('M', [query]) => Some(Request::OpenModel(*query)),
        ('S', [rule, place]) => Some(Request::Step {
            rule: *rule,
            place: *place,
        }),
        ('C', places) if places.len() <= 4 => Some(Request::Claim(Places::new(places))),
        ('X', [constraint, places @ ..]) if !places.is_empty() && places.len() <= 4 => {
            Some(Request::Clash {
                constraint: *constraint,
                places: Places::new(places),
            })
        }
        _ => None,
    }
}

/// A request that is a letter and the numbers of an atom.
fn request_of_numbers(heap: Global, letter: char, atom: &WrittenAtom) -> Result<Request, ReadError>
    ensures same { IfRead result (λ o. option_map asked o ≡ option_and_then (numbered_of letter) (numbers_of atom.now)) }
    ensures whole { IfOk result WholeRequest }
{
    let figures = numbers(heap, atom)?;
    numbered_request(letter, figures.as_slice()).ok_or(ReadError::Broken)
}

/// A request that is a letter and an atom or numbers.
pub(crate) fn request_with(
    heap: Global,
    letter: char,
    atom: WrittenAtom,
) -> Result<Request, ReadError>
    ensures same { IfRead result (λ o. option_map asked o ≡ asked_with letter atom) }
    ensures whole { IfOk result WholeRequest }
{
    match letter {
        'A' => Ok(Request::Add(atom.into())),
        'L' => Ok(Request::Lodge(atom.into())),
        _ => request_of_numbers(heap, letter, &atom),
    }
}
