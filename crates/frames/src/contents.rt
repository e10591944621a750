//! Reading the contents of a bundle.
ghost use Rattle.frames.specs.Frames.{within, count_of, counts_of};
ghost use Rattle.std.specs.Prelude.{◌≡◌, map, vec_items};
ghost use Rattle.std.specs.Option.{option_map};
ghost use Rattle.words.specs.Reads.{IfRead};

use kinds::line::arity;
use std::alloc::Global;
use words::error::ReadError;

/// The letter of each contents line, and how many lines its body has at most.
const CONTENTS: [(u8, usize); 6] = [
    (b'P', 64),
    (b'F', 4096),
    (b'T', 64),
    (b'N', 32),
    (b'Q', 16),
    (b'D', 4096),
];

/// The number of lines that a contents line gives, where its letter is this and the number at most that.
fn count(heap: Global, line: &[u8], letter: u8, most: usize) -> Result<usize, ReadError>
    ensures { IfRead result (λ o. o ≡ count_of letter most line.now) }
{
    match line {
        [first, b' ', rest @ ..] if *first == letter => {
            let number = arity(heap, rest)?;
            if number <= most {
                Ok(number)
            } else {
                Err(ReadError::Broken)
            }
        }
        _ => Err(ReadError::Broken),
    }
}

/// The numbers of lines of the six bodies, where the first six lines announce as many as follow.
pub(crate) fn counts(heap: Global, lines: &[&[u8]]) -> Result<Vec<usize>, ReadError>
    ensures { IfRead result (λ o. option_map vec_items o ≡ counts_of (map (λ l. l.now) lines.now)) }
{
    let mut left = lines
        .len()
        .checked_sub(CONTENTS.len())
        .ok_or(ReadError::Broken)?;
    let mut out = Vec::new(heap);
    for ((letter, most), line) in CONTENTS.iter().zip(lines) {
        let number = count(heap, line, *letter, *most)?;
        left = left.checked_sub(number).ok_or(ReadError::Broken)?;
        out.push(number)?;
    }
    if left > 0 {
        return Err(ReadError::Broken);
    }
    Ok(out)
}
