// Reads commands from standard input and prints what a vault on a table rack answers.
#![tactic(auto)]

ghost use Rattle.std.specs.Prelude.{◌≡◌, take, IfOk, IfSome};

use console::{LIMIT, transcript};
use std::alloc::Global;
use std::io::Read;

// The first `LIMIT` bytes of a reader, or all where there are fewer; further bytes are left unread.
fn first_bytes<R: Read + Drop>(heap: Global, mut reader: R) -> anyhow::Result<Vec<u8>>
    ensures { IfSome (R.remaining reader) (λ all. IfOk result (λ bytes. bytes.items ≡ take 65536 all)) }
{
    let mut bytes = Vec::from_elem(heap, 0u8, LIMIT)?;
    let mut len = 0;
    // Each read is offered all the room that is left: a packet that is read in parts would lose its rest.
    while len < LIMIT {
        let n = reader.read(&mut bytes[len..])?;
        if n == 0 {
            break;
        }
        len += n;
    }
    bytes.truncate(len);
    Ok(bytes)
}

// Prints what the commands on standard input are answered.
fn run(rt: &HostRuntime) -> anyhow::Result<()> {
    let bytes = first_bytes(rt.alloc(), rt.stdin())?;
    let out = transcript(rt.alloc(), bytes.as_slice())?;
    rt.print(out.as_str())?;
    Ok(())
}

fn main(rt: HostRuntime) -> anyhow::Result<()> {
    run(&rt)
}
