//! Printing a line.
ghost use Rattle.printing.specs.Printed.{open_text, taken_text, verdict_text, struck_text, refused_text, bad_text, end_text};
ghost use Rattle.std.specs.Prelude.{◌≡◌, IfOk, string_bytes};

use calls::answer::Verdict;
use refusals::refusal::Refusal;
use shelves::taken::Taken;
use std::alloc::{AllocError, Global};

/// A check was opened.
pub fn open_line(heap: Global, n: usize) -> Result<String, AllocError>
    ensures { IfOk result (λ s. string_bytes s ≡ open_text n) }
{
    format!(in heap; "{n} open\n")
}

/// An atom was taken in, or stood there already.
pub fn taken_line(heap: Global, n: usize, answer: Taken) -> Result<String, AllocError>
    ensures { IfOk result (λ s. string_bytes s ≡ taken_text n answer) }
{
    format!(in heap; "{n} {answer}\n")
}

/// A certificate was accepted.
pub fn verdict_line(heap: Global, n: usize, verdict: Verdict) -> Result<String, AllocError>
    ensures { IfOk result (λ s. string_bytes s ≡ verdict_text n verdict) }
{
    format!(in heap; "{n} {verdict}\n")
}

/// A check was struck.
pub fn struck_line(heap: Global, n: usize) -> Result<String, AllocError>
    ensures { IfOk result (λ s. string_bytes s ≡ struck_text n) }
{
    format!(in heap; "{n} struck\n")
}

/// A request was refused.
pub fn refused_line(heap: Global, n: usize, refusal: Refusal) -> Result<String, AllocError>
    ensures { IfOk result (λ s. string_bytes s ≡ refused_text n refusal) }
{
    format!(in heap; "{n} {refusal}\n")
}

/// A line of the bundle was refused.
pub fn bad_line(heap: Global, line: usize, refusal: Refusal) -> Result<String, AllocError>
    ensures { IfOk result (λ s. string_bytes s ≡ bad_text line refusal) }
{
    let number = refusal.number();
    format!(in heap; "bad {line} {number}\n")
}

/// A check that was open at the end was struck.
pub fn end_line(heap: Global) -> Result<String, AllocError>
    ensures { IfOk result (λ s. string_bytes s ≡ end_text) }
{
    format!(in heap; "end struck\n")
}
