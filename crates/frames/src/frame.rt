//! Reading the frame of a bundle.
ghost use Rattle.frames.specs.Framed.{bodies};
ghost use Rattle.frames.specs.Frames.{GoodBundle, bundle_text, Shaped};
ghost use Rattle.std.specs.Prelude.{◌≡◌, length, IfOk};
ghost use Rattle.std.specs.Option.{option_map};
ghost use Rattle.words.specs.Reads.{Reads, IfRead};

use crate::contents::counts;
use crate::split::split;
use std::alloc::Global;
use words::error::ReadError;

/// The lines of a bundle, the contents first, and how many each of its six bodies has.
#[derive(Drop)]
pub struct Frame<'a> {
    pub lines: Vec<&'a [u8]>,
    pub sizes: Vec<usize>,
}

/// The frame of a bundle.
pub fn read_frame<'a>(heap: Global, bytes: &'a [u8]) -> Result<Frame<'a>, ReadError>
    ensures reads { IfRead result (λ o. Reads GoodBundle bundle_text bytes.now (option_map bodies o)) }
    ensures shape { IfOk result (λ f. Shaped f.sizes.items (length f.lines.items)) }
{
    if bytes.len() > 65_536 {
        return Err(ReadError::Broken);
    }
    let lines = split(heap, bytes)?;
    let sizes = counts(heap, lines.as_slice())?;
    Ok(Frame { lines, sizes })
}
