// The calls that lines ask of an open vault.
ghost use Rattle.std.specs.Prelude.{◌≡◌, ℕ, ◌*◌, ◌^◌, List, [], Some, length, IfOk, OnErr};
ghost use Rattle.lines.specs.Requests.{requested, reads};
ghost use Rattle.console.specs.Session.{Served};
ghost use Rattle.console.specs.Making.{Makes};

use field::Field;
use lines::Command;
use rack::TableRack;
use refusal::Refusal;
use std::alloc::{AllocError, Global};
use vault::Vault;
use vault_calls::Answer;

// What a call answered, none where none was made; after a read, the words.
#[derive(Drop)]
pub struct Reply {
    pub answer: Option<Result<Answer, Refusal>>,
    pub words: Vec<u16>,
}

impl Reply {
    // A reply without words.
    pub fn plain(heap: Global, answer: Option<Result<Answer, Refusal>>) -> Reply
        ensures { (result.answer ≡ answer) × (result.words.items ≡ []) }
    {
        Reply {
            answer,
            words: Vec::new(heap),
        }
    }
}

// Reads words of the message. Where memory is wanting, nothing is read.
fn read<F: Field + Drop>(
    heap: Global,
    vault: &mut Vault<F, TableRack>,
    start: u16,
    count: u16,
) -> Result<Reply, AllocError>
    ensures served { IfOk result (λ y. Served F.arith (reads start count) vault.old y vault.new) }
    ensures unserved { OnErr result (vault.new ≡ vault.old) }
{
    let mut words = Vec::from_elem(heap, 0u16, usize::from(count))?;
    let answer = vault.read(usize::from(start), words.as_mut_slice());
    Ok(Reply {
        answer: Some(answer),
        words,
    })
}

// Makes a call with a work space that has a word for each place of each node. Where memory is wanting, it is not made.
fn with_space<
    F: Field + Drop,
    C: FnOnce(&mut Vault<F, TableRack>, &mut [u16]) -> Result<Answer, Refusal>,
>(heap: Global, vault: &mut Vault<F, TableRack>, make: C) -> Result<Reply, AllocError>
    requires { C.IsAlwaysCallable make }
    ensures made { IfOk result (λ y. (space : List ℕ) × (r : _) × (length space ≡ vault.old.shape.q * vault.old.shape.t * vault.old.shape.q ^ vault.old.shape.t) × Makes C.FnOnce make vault.old space r vault.new × (y.answer ≡ Some r) × (y.words.items ≡ [])) }
    ensures unmade { OnErr result (vault.new ≡ vault.old) }
{
    let mut space = Vec::from_elem(heap, 0u16, vault.shape().words())?;
    let answer = make(vault, space.as_mut_slice());
    Ok(Reply::plain(heap, Some(answer)))
}

// Makes a call. No second vault is opened. Where memory is wanting, no call is made.
pub fn call<F: Field + Drop>(
    heap: Global,
    vault: &mut Vault<F, TableRack>,
    command: Command,
) -> Result<Reply, AllocError>
    ensures served { IfOk result (λ y. Served F.arith (requested command) vault.old y vault.new) }
    ensures unserved { OnErr result (vault.new ≡ vault.old) }
{
    match command {
        Command::Open(_, _, _) => Ok(Reply::plain(heap, None)),
        Command::Read(start, count) => read(heap, vault, start, count),
        Command::Store(message) => with_space(heap, vault, |v, space| v.store(&message, space)),
        Command::Repair(i) => with_space(heap, vault, |v, space| v.repair(usize::from(i), space)),
        Command::Recover => with_space(heap, vault, |v, space| v.recover(space)),
        Command::DropNode(i) => {
            let answer = vault.drop_node(usize::from(i));
            Ok(Reply::plain(heap, Some(answer)))
        }
        Command::Alter(i, p, w) => {
            let answer = vault.alter(usize::from(i), usize::from(p), w);
            Ok(Reply::plain(heap, Some(answer)))
        }
    }
}
