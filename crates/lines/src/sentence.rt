//! Sentences: the atoms of a line.
ghost use Rattle.lines.specs.Sentences.{sentence, closed, gathered, spoken_of, spoken_text, GoodSpoken};
ghost use Rattle.std.specs.Prelude.{◌≡◌, Some};
ghost use Rattle.std.specs.Option.{option_map};
ghost use Rattle.words.specs.Reads.{Reads, IfRead};

use crate::atom::{WrittenAtom, take_word};
use crate::part::Part;
use std::alloc::Global;
use words::error::ReadError;
use words::reader::tokens;
use words::word::{Mark, Token};

/// Atoms parted by commas, and after a semicolon perhaps one atom more.
#[derive(Drop)]
pub struct Sentence {
    pub body: Vec<WrittenAtom>,
    pub head: Option<WrittenAtom>,
}

/// The sentence that the last atom ends.
fn ended(mut body: Vec<WrittenAtom>, part: Part, last: WrittenAtom) -> Result<Sentence, ReadError>
    ensures { IfRead result (λ o. option_map sentence o ≡ Some (closed body.items part last)) }
{
    let head = match part {
        Part::Body => {
            body.push(last)?;
            None
        }
        Part::Head => Some(last),
    };
    Ok(Sentence { body, head })
}

/// The sentence that the words make.
fn gather(heap: Global, tokens: &[Token]) -> Result<Sentence, ReadError>
    ensures { IfRead result (λ o. option_map sentence o ≡ gathered tokens.now) }
{
    let mut body = Vec::new(heap);
    let mut part = Part::Body;
    let mut begun = None;
    for (i, token) in tokens.iter().enumerate() {
        let atom = take_word(begun, token.term).ok_or(ReadError::Broken)?;
        begun = match (token.mark, part) {
            (Mark::Space, _) => Some(atom),
            (Mark::Comma, Part::Body) => {
                body.push(atom)?;
                None
            }
            (Mark::Semicolon, Part::Body) => {
                body.push(atom)?;
                part = Part::Head;
                None
            }
            (Mark::End, _) if i + 1 == tokens.len() => return ended(body, part, atom),
            _ => return Err(ReadError::Broken),
        };
    }
    Err(ReadError::Broken)
}

/// The sentence of a line.
pub fn read_sentence(heap: Global, line: &[u8]) -> Result<Sentence, ReadError>
    ensures same { IfRead result (λ o. option_map sentence o ≡ spoken_of line.now) }
    ensures reads { IfRead result (λ o. Reads GoodSpoken spoken_text line.now (option_map sentence o)) }
{
    let words = tokens(heap, line)?;
    gather(heap, words.as_slice())
}
