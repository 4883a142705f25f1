// Encodes a message.
ghost use Rattle.std.specs.Prelude.{◌≡◌, ℕ, ◌<◌, ◌≤◌, length, slice_index};
ghost use Rattle.code.specs.Calls.{Encoded};
ghost use Rattle.code.specs.Solving.{KeptFrom};
ghost use Rattle.code.specs.Theorems.{SomeOne};

use crate::checking::all_codes;
use crate::listing::span;
use crate::restoring::restore;
use field::Field;
use refusal::Refusal;
use shape::Shape;

// Copies a message to the front of the words.
fn copy_message(message: &[u16], words: &mut [u16])
    requires { length message.now ≤ length words.old }
    ensures copied { (k : ℕ) → k < length message.now → slice_index words.new k ≡ slice_index message.now k }
    ensures kept { KeptFrom words.old words.new (length message.now) }
{
    words[..message.len()].copy_from_slice(message);
}

// Makes the first words the only codeword that carries the message in its data nodes.
pub fn encode<F: Field>(shape: Shape, message: &[u16], words: &mut [u16]) -> Result<(), Refusal>
    ensures encoded { Encoded F.arith shape.q shape.t message.now words.old result words.new }
    ensures some_one { SomeOne F.arith }
{
    if message.len() != shape.message_words() {
        return Err(Refusal::MessageLength);
    }
    if words.len() < shape.words() {
        return Err(Refusal::WorkSpace);
    }
    if !all_codes::<F>(message) {
        return Err(Refusal::NoCode);
    }
    copy_message(message, words);
    let parity = span(shape, shape.data_nodes());
    restore::<F>(shape, &parity, words)
}
