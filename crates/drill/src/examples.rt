// Examples of a vault of two rows and two columns over the byte field, on any rack.
use crate::told::Told;
use field::ByteField;
use rack::Rack;
use refusal::Refusal;
use std::alloc::{AllocError, Global};
use std::fmt::Write;
use vault::Vault;
use vault_calls::Answer;

// The message that is stored.
pub const MESSAGE: [u16; 8] = [1, 0, 0, 0, 0, 0, 0, 0];

// Stores the message, makes the first nodes out, and then makes a call.
fn call_without<R: Rack + Drop, C>(
    vault: &mut Vault<ByteField, R>,
    lost: usize,
    call: C,
) -> Result<Answer, Refusal>
where
    C: FnOnce(&mut Vault<ByteField, R>, &mut [u16]) -> Result<Answer, Refusal>,
    requires { C.IsAlwaysCallable call }
{
    let mut space = [0u16; 16];
    vault.store(&MESSAGE, &mut space)?;
    for node in 0..lost {
        vault.drop_node(node)?;
    }
    call(vault, &mut space)
}

// A line for each example.
pub(crate) fn examples<R: Rack + Drop>(
    heap: Global,
    vault: &mut Vault<ByteField, R>,
) -> Result<String, AllocError> {
    let mut out = String::new(heap);
    // With one word altered and two nodes out, three nodes are at fault.
    let told = Told(call_without(vault, 2, |vault, space| {
        vault.alter(3, 0, 84)?;
        vault.recover(space)
    }));
    writeln!(
        out,
        "node 3 place 0 altered, nodes 0 and 1 out: recover: {told}"
    )?;
    let mut message = [0u16; 8];
    let told = Told(vault.read(0, &mut message));
    writeln!(out, "read of {message:?}: {told}")?;
    let told = Told(call_without(vault, 3, |vault, space| vault.recover(space)));
    writeln!(out, "nodes 0, 1 and 2 out: recover: {told}")?;
    let told = Told(call_without(vault, 2, |vault, space| vault.repair(0, space)));
    writeln!(out, "nodes 0 and 1 out: repair of node 0: {told}")?;
    let told = Told(call_without(vault, 0, |vault, space| vault.recover(space)));
    writeln!(out, "none out: recover: {told}")?;
    Ok(out)
}
