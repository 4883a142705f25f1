// The answer of an accepted call, and how it is printed.
ghost use Rattle.std.specs.Prelude.{Some};
ghost use Rattle.vault_calls.specs.Words.{answer_words};

use std::fmt;

#[derive(Clone, Copy, PartialEq, Eq, Debug, Default)]
pub struct Answer {
    // the nodes that it wrote whole and raised
    pub filled: usize,
    // the words that it drew: the sum of the rises of the meters
    pub drawn: usize,
}

// How many nodes were filled, and how many words were drawn.
impl fmt::Display for Answer {
    ghost output = { λ answer. Some (answer_words answer) };

    fn fmt<W: fmt::Write>(&self, f: &mut fmt::Formatter<W>) -> fmt::Result {
        let filled = self.filled;
        let drawn = self.drawn;
        write!(f, "filled {filled}, drawn {drawn}")
    }
}
