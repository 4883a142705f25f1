// A vault on a table rack, driven by lines.
ghost use Rattle.std.specs.Prelude.{◌≡◌, ℕ, ◌*◌, ◌^◌, true, List, ◌++◌, is_ok, IfOk, string_bytes, MatchResult, OnOk, OnErr};
ghost use Rattle.lines.specs.Printed.{printed};
ghost use Rattle.lines.specs.Requests.{requested};
ghost use Rattle.rack.specs.Model.{fresh};
ghost use Rattle.rack.specs.Table.{table_model};
ghost use Rattle.shape.specs.Layout.{is_shape};
ghost use Rattle.console.specs.Session.{Answered, Unopened, Unprinted, Begun, Replied, closed, opened, reply_line, state_of};

use crate::calls::{Reply, call};
use field::{ByteField, Field, PrimeField};
use lines::{Command, Kind, parse, print_bad, print_no, print_ok};
use rack::{Rack, TableError, TableRack};
use shape::Shape;
use std::alloc::{AllocError, Global};
use vault::Vault;
use vault_calls::Answer;

// Prints a reply.
fn print_reply(out: &mut String, reply: Reply) -> Result<(), AllocError>
    ensures { string_bytes out.new ≡ printed (is_ok result) (string_bytes out.old) (reply_line reply.answer reply.words.items) }
{
    match reply.answer {
        None => print_bad(out),
        Some(Ok(a)) => print_ok(out, a.filled, a.drawn, reply.words.as_slice()),
        Some(Err(why)) => print_no(out, why),
    }
}

// A vault over one of the two fields.
#[derive(Drop)]
enum AnyVault {
    Byte(Vault<ByteField, TableRack>),
    Prime(Vault<PrimeField, TableRack>),
}

// What a session is: no vault before the first accepted shape, and one vault after it.
#[derive(Drop)]
pub struct Session {
    heap: Global,
    vault: Option<AnyVault>,
}

// A vault of q rows and t columns on a new table rack, or why there is none.
fn open<F: Field + Drop>(
    heap: Global,
    field: F,
    q: u16,
    t: u16,
) -> Result<Vault<F, TableRack>, TableError>
    ensures { MatchResult result (λ v. (is_shape q t ≡ true) × (v.shape.q ≡ q) × (v.shape.t ≡ t) × (table_model v.rack ≡ fresh (q * t) (q ^ t))) (λ e. Unopened q t e) }
{
    let shape = Shape::new(usize::from(q), usize::from(t)).map_err(TableError::Refused)?;
    let rack = TableRack::new(heap, shape.nodes(), shape.places())?;
    Vault::open(shape, field, rack).map_err(|back| TableError::Refused(back.why))
}

impl Session {
    // A session without a vault.
    pub fn new(heap: Global) -> Session
        ensures { state_of result ≡ closed }
    {
        Session { heap, vault: None }
    }

    // Opens the vault, if the numbers are a shape.
    fn first(&mut self, kind: Kind, q: u16, t: u16) -> Result<(), TableError>
        requires { state_of self.old ≡ closed }
        ensures { MatchResult result (λ _. (is_shape q t ≡ true) × (state_of self.new ≡ opened kind q t (fresh (q * t) (q ^ t)))) (λ e. Unopened q t e × (state_of self.new ≡ closed)) }
    {
        self.vault = Some(match kind {
            Kind::Byte => AnyVault::Byte(open(self.heap, ByteField, q, t)?),
            Kind::Prime => AnyVault::Prime(open(self.heap, PrimeField, q, t)?),
        });
        Ok(())
    }

    // Replies before there is a vault: only a shape is taken.
    fn begin(&mut self, command: Command) -> Result<Reply, AllocError>
        requires { state_of self.old ≡ closed }
        ensures begun { IfOk result (λ y. Begun (requested command) y.answer y.words.items (state_of self.new)) }
        ensures unbegun { OnErr result (state_of self.new ≡ closed) }
    {
        let answer = match command {
            Command::Open(kind, q, t) => match self.first(kind, q, t) {
                Ok(()) => Some(Ok(Answer::default())),
                Err(TableError::Refused(why)) => Some(Err(why)),
                Err(TableError::NoMemory) => return Err(AllocError),
            },
            _ => None,
        };
        Ok(Reply::plain(self.heap, answer))
    }

    // Replies to a command.
    fn reply(&mut self, command: Command) -> Result<Reply, AllocError>
        ensures replied { IfOk result (λ y. Replied (requested command) (state_of self.old) y.answer y.words.items (state_of self.new)) }
        ensures unreplied { OnErr result (state_of self.new ≡ state_of self.old) }
    {
        match &mut self.vault {
            Some(AnyVault::Byte(v)) => call(self.heap, v, command),
            Some(AnyVault::Prime(v)) => call(self.heap, v, command),
            None => self.begin(command),
        }
    }

    // Answers one line, without its line end. Where memory is wanting, nothing is printed.
    pub fn answer(&mut self, line: &[u8], out: &mut String) -> Result<(), AllocError>
        ensures answered { OnOk result ((bytes : List ℕ) × ((string_bytes out.new ≡ string_bytes out.old ++ bytes) × Answered (state_of self.old) line.now bytes (state_of self.new))) }
        ensures unanswered { OnErr result ((string_bytes out.new ≡ string_bytes out.old) × Unprinted (state_of self.old) line.now (state_of self.new)) }
    {
        let Some(command) = parse(self.heap, line)? else {
            return print_bad(out);
        };
        let reply = self.reply(command)?;
        print_reply(out, reply)
    }
}
