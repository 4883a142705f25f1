// What a word asks for with the numbers after it.
ghost use Rattle.std.specs.Prelude.{◌≡◌};
ghost use Rattle.std.specs.Option.{option_map};
ghost use Rattle.std.specs.Str.{bytes_eq};
ghost use Rattle.lines.specs.Requests.{asked, requested};

use crate::command::{Command, Kind};

// Whether a word is spelled so.
fn spells(word: &[u8], name: &[u8]) -> bool
    ensures { result ≡ bytes_eq word.now name.now }
{
    word == name
}

// What a word asks for with the numbers after it.
pub fn command_of(word: &[u8], found: Vec<u16>) -> Option<Command>
    ensures { option_map requested result ≡ asked word.now found.items }
{
    // By guards: a match on byte strings has a last arm with some forty paths to it, each to be proved by itself.
    match *found.as_slice() {
        _ if spells(word, b"store") => Some(Command::Store(found)),
        [q, t] if spells(word, b"byte") => Some(Command::Open(Kind::Byte, q, t)),
        [q, t] if spells(word, b"prime") => Some(Command::Open(Kind::Prime, q, t)),
        [i] if spells(word, b"drop") => Some(Command::DropNode(i)),
        [i, p, w] if spells(word, b"alter") => Some(Command::Alter(i, p, w)),
        [i] if spells(word, b"repair") => Some(Command::Repair(i)),
        [] if spells(word, b"recover") => Some(Command::Recover),
        [start, count] if spells(word, b"read") => Some(Command::Read(start, count)),
        _ => None,
    }
}
