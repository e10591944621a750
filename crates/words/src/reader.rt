//! Reading the words of a line.
ghost use Rattle.std.specs.Prelude.{◌≡◌, [], ◌∷◌, ◌++◌, Some, vec_items};
ghost use Rattle.std.specs.Option.{option_map};
ghost use Rattle.std.specs.List.{AllByRecursion};
ghost use Rattle.words.specs.Reads.{Reads, IfRead};
ghost use Rattle.words.specs.Words.{term_of, tokens_text, Small, step_of, tokens_of};

use crate::error::ReadError;
use crate::word::{Mark, State, Step, TermKind, Token};
use reading::raw::RawTerm;
use std::alloc::Global;

/// The word that a mark ends.
fn word(kind: TermKind, number: u32, mark: Mark) -> Token
    ensures { result ≡ record { term = term_of kind number; mark = mark } }
{
    let term = match kind {
        TermKind::Constant => RawTerm::Constant(number),
        TermKind::Variable => RawTerm::Variable(number),
        TermKind::Null => RawTerm::Null(number),
    };
    Token { term, mark }
}

/// What a byte means depends on where the reader stands; none where it breaks the form.
fn step(state: State, byte: u8) -> Option<Step>
    ensures { result ≡ step_of state byte }
{
    let next = match (state, byte) {
        (State::BetweenWords, b'v') => Step::Go(State::AfterV),
        (State::BetweenWords, b'n') => Step::Go(State::AfterN),
        (State::BetweenWords, b'0'..=b'9') => {
            Step::Go(State::InNumber(TermKind::Constant, (byte - b'0') as u32))
        }
        (State::AfterV, b'0'..=b'9') => {
            Step::Go(State::InNumber(TermKind::Variable, (byte - b'0') as u32))
        }
        (State::AfterN, b'0'..=b'9') => {
            Step::Go(State::InNumber(TermKind::Null, (byte - b'0') as u32))
        }
        (State::InNumber(kind, number), b'0'..=b'9') if number > 0 && number < 1_000_000 => {
            Step::Go(State::InNumber(kind, number * 10 + (byte - b'0') as u32))
        }
        (State::InNumber(kind, number), b' ') => Step::Ends(word(kind, number, Mark::Space)),
        (State::InNumber(kind, number), b',') => Step::Ends(word(kind, number, Mark::Comma)),
        (State::InNumber(kind, number), b';') => Step::Ends(word(kind, number, Mark::Semicolon)),
        (State::InNumber(kind, number), b'\n') => Step::Ends(word(kind, number, Mark::End)),
        _ => return None,
    };
    Some(next)
}

/// The words of a line that byte 10 ends, each with its mark.
pub fn tokens(heap: Global, line: &[u8]) -> Result<Vec<Token>, ReadError>
    ensures same { IfRead result (λ o. option_map vec_items o ≡ tokens_of line.now) }
    ensures reads { IfRead result (λ o. Reads (AllByRecursion Small) tokens_text (line.now ++ 10 ∷ []) (option_map vec_items o)) }
{
    let mut out = Vec::new(heap);
    let mut state = State::BetweenWords;
    for byte in line {
        match step(state, *byte).ok_or(ReadError::Broken)? {
            Step::Go(next) => state = next,
            Step::Ends(token) => {
                out.push(token)?;
                state = State::BetweenWords;
            }
        }
    }
    let Some(Step::Ends(token)) = step(state, b'\n') else {
        return Err(ReadError::Broken);
    };
    out.push(token)?;
    Ok(out)
}
