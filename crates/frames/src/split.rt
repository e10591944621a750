//! Cutting bytes into lines.
ghost use Rattle.frames.specs.Frames.{lines_of};
ghost use Rattle.std.specs.Prelude.{◌≡◌, ◌==◌, map, IfOk};
ghost use Rattle.std.specs.List.{slice_split};
ghost use Rattle.std.specs.Option.{option_map};
ghost use Rattle.words.specs.Reads.{IfRead};

use std::alloc::{AllocError, Global};
use words::error::ReadError;

/// The parts between the bytes 10.
fn parts<'a>(heap: Global, bytes: &'a [u8]) -> Result<Vec<&'a [u8]>, AllocError>
    ensures { IfOk result (λ v. map (λ l. l.now) v.items ≡ slice_split (λ b. b == 10) bytes.now) }
{
    bytes.split(|byte| *byte == b'\n').collect(heap)
}

/// The lines, without the byte 10 that ends each.
pub(crate) fn split<'a>(heap: Global, bytes: &'a [u8]) -> Result<Vec<&'a [u8]>, ReadError>
    ensures { IfRead result (λ o. option_map (λ v. map (λ l. l.now) v.items) o ≡ lines_of bytes.now) }
{
    let Some((last, text)) = bytes.split_last() else {
        return Ok(Vec::new(heap));
    };
    if *last != b'\n' {
        return Err(ReadError::Broken);
    }
    Ok(parts(heap, text)?)
}
