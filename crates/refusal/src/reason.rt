// Why a call was refused, and where an image is malformed.
ghost use Rattle.std.specs.Prelude.{◌≡◌, Some};
ghost use Rattle.refusal.specs.Numbers.{number_of, cause_number};
ghost use Rattle.refusal.specs.Words.{fault_words, refusal_words};

use std::error::Error;
use std::fmt;

// What is wrong with an image's byte.
#[derive(Clone, Copy, PartialEq, Eq, Debug)]
pub enum Cause {
    Length,
    Mark,
    Number,
    Flag,
}

// Where an image is malformed: the room, the record, and the byte counted from the image's start.
#[derive(Clone, Copy, PartialEq, Eq, Debug)]
pub struct Fault {
    pub room: u8,
    pub record: usize,
    pub byte: usize,
    pub cause: Cause,
}

// Why a call was refused. A refused call changes nothing, except that `BadWord` and `NoCodeword` come after the words were drawn.
#[derive(Clone, Copy, PartialEq, Eq, Debug)]
pub enum Refusal {
    // The two numbers are no shape.
    Shape,
    // The counts of a rack do not fit.
    Size,
    // A message does not have as many words as the data nodes have places.
    MessageLength,
    // The work space is too short.
    WorkSpace,
    // A word is no code of the field.
    NoCode,
    // There is no such node or place, or a list of nodes is unfit.
    NoSuchPlace,
    // An image is malformed.
    Image(Fault),
    // A node that is needed is out.
    NodeOut,
    // The node to repair stands.
    NodeStands,
    // Another node than the one to repair is out.
    AnotherOut,
    // More nodes are out than the code can restore.
    TooManyOut,
    // A word that was drawn is no code.
    BadWord,
    // No codeword agrees with the standing nodes.
    NoCodeword,
}

impl Cause {
    // The number of the cause.
    pub fn number(self) -> u8
        ensures { result ≡ cause_number self }
    {
        // A cast counts from 0.
        self as u8 + 1
    }
}

impl Refusal {
    // The number of the refusal, which operators see.
    // By a match: one refusal holds a fault, so no cast gives its number.
    pub fn number(self) -> u8
        ensures { result ≡ number_of self }
    {
        match self {
            Refusal::Shape => 1,
            Refusal::Size => 2,
            Refusal::MessageLength => 3,
            Refusal::WorkSpace => 4,
            Refusal::NoCode => 5,
            Refusal::NoSuchPlace => 6,
            Refusal::Image(_) => 7,
            Refusal::NodeOut => 8,
            Refusal::NodeStands => 9,
            Refusal::AnotherOut => 10,
            Refusal::TooManyOut => 11,
            Refusal::BadWord => 12,
            Refusal::NoCodeword => 13,
        }
    }
}

// The cause's number, and the place of the byte.
impl fmt::Display for Fault {
    ghost output = { λ fault. Some (fault_words fault) };

    fn fmt<W: fmt::Write>(&self, f: &mut fmt::Formatter<W>) -> fmt::Result {
        let cause = self.cause.number();
        let room = self.room;
        let record = self.record;
        let byte = self.byte;
        write!(
            f,
            "cause {cause}: room {room}, record {record}, byte {byte}"
        )
    }
}

// The refusal's number, and where an image is malformed.
impl fmt::Display for Refusal {
    ghost output = { λ refusal. Some (refusal_words refusal) };

    fn fmt<W: fmt::Write>(&self, f: &mut fmt::Formatter<W>) -> fmt::Result {
        let number = self.number();
        match self {
            Refusal::Image(fault) => write!(f, "refused by {number}, {fault}"),
            _ => write!(f, "refused by {number}"),
        }
    }
}

impl Error for Refusal {}
