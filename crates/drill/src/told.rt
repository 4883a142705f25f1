// What is printed of a call.
use refusal::Refusal;
use std::fmt;
use vault_calls::Answer;

// What a call answered: an answer or a refusal, each in its own words.
#[derive(Drop)]
pub(crate) struct Told(pub Result<Answer, Refusal>);

impl fmt::Display for Told {
    fn fmt<W: fmt::Write>(&self, f: &mut fmt::Formatter<W>) -> fmt::Result {
        match self.0 {
            Ok(answer) => write!(f, "{answer}"),
            Err(why) => write!(f, "{why}"),
        }
    }
}
