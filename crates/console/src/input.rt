// A whole input, line by line.
ghost use Rattle.std.specs.Prelude.{◌≡◌, ◌<◌, ◌==◌, length, IfOk, IfSome, string_bytes};
ghost use Rattle.std.specs.List.{position};
ghost use Rattle.console.specs.Session.{State, closed};
ghost use Rattle.console.specs.Transcript.{Transcribed, complete_lines, lines_of};

use crate::session::Session;
use std::alloc::{AllocError, Global};

// How many bytes of an input count.
pub const LIMIT: usize = 65_536;

// Where the first line of a text ends, if it is complete.
fn line_end(text: &[u8]) -> Option<usize>
    ensures first { result ≡ position (λ b. b == 10) text.now }
    ensures within { IfSome result (λ end. end < length text.now) }
{
    text.iter().position(|b| *b == b'\n')
}

// What is printed for a text: the answer to each of its complete lines, in order.
fn answers(heap: Global, text: &[u8]) -> Result<String, AllocError>
    ensures { IfOk result (λ s. ((final : State) × Transcribed closed (lines_of text.now) (string_bytes s) final)) }
{
    let mut session = Session::new(heap);
    let mut out = String::new(heap);
    let mut rest = text;
    // By what is left of the text: a last line without its end is no line, and the parts of a `split` have it.
    while let Some(end) = line_end(rest) {
        session.answer(&rest[..end], &mut out)?;
        rest = &rest[end + 1..];
    }
    Ok(out)
}

// What is printed for an input: the answer to each complete line of its first 65,536 bytes, in order.
pub fn transcript(heap: Global, input: &[u8]) -> Result<String, AllocError>
    ensures { IfOk result (λ s. ((final : State) × Transcribed closed (complete_lines input.now) (string_bytes s) final)) }
{
    answers(heap, &input[..input.len().min(LIMIT)])
}
