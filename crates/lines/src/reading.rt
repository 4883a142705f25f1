// Reading a line: a word, then numbers, parted by exactly one space.
ghost use Rattle.std.specs.Prelude.{◌≡◌, IfOk};
ghost use Rattle.std.specs.Option.{option_map};
ghost use Rattle.lines.specs.Requests.{request, requested};

use crate::command::Command;
use crate::numbers::number;
use crate::words::command_of;
use std::alloc::{AllocError, Global};

// What a line, without its line end, asks for; none where it is no command, and an error where memory is wanting.
pub fn parse(heap: Global, line: &[u8]) -> Result<Option<Command>, AllocError>
    ensures { IfOk result (λ o. option_map requested o ≡ request line.now) }
{
    let mut items = line.split(|b| *b == b' ');
    let word = items.next().unwrap();
    let mut found = Vec::new(heap);
    for item in items {
        let Some(n) = number(item) else {
            return Ok(None);
        };
        found.push(n)?;
    }
    Ok(command_of(word, found))
}
