// Reading words of the message.
ghost use Rattle.std.specs.Prelude.{◌≡◌, ℕ, ◌+◌, ◌-◌, ◌*◌, ◌/◌, ◌%◌, ◌^◌, ◌<◌, ◌≤◌, true, length, Ok, slice_index};
ghost use Rattle.shape.specs.Outages.{every};
ghost use Rattle.vault_calls.specs.Calls.{held, Read};
ghost use Rattle.vault_calls.specs.History.{ReadPromise};
ghost use Rattle.vault_calls.specs.Steps.{read_drawn, StaysLent};

use crate::answer::Answer;
use crate::fitted::Fitted;
use crate::sizes::fits;
use field::Field;
use rack::Rack;
use refusal::Refusal;
use shape::Shape;

impl<'a, R: Rack> Fitted<'a, R> {
    // Whether the nodes of the words from a start on stand.
    fn all_stand(&self, start: usize, len: usize) -> bool
        requires { start + len ≤ self.now.shape.q * (self.now.shape.t - 1) * self.now.shape.q ^ self.now.shape.t }
        ensures { result ≡ every (λ j. (R.model self.now.rack.now).flags ((start + j) / self.now.shape.q ^ self.now.shape.t)) len }
    {
        let places = self.shape.places();
        // A loop that returns early: for `(0..len).all(..)` it was not proved that each sum fits, nor what is returned.
        for j in 0..len {
            if !(*self.rack).stands((start + j) / places) {
                return false;
            }
        }
        true
    }

    // Gets the words from a start on, each once.
    fn read_words(&mut self, start: usize, buffer: &mut [u16]) -> Result<(), Refusal>
        requires inside { start + length buffer.old ≤ self.old.shape.q * (self.old.shape.t - 1) * self.old.shape.q ^ self.old.shape.t }
        requires stand { every (λ j. (R.model self.old.rack.now).flags ((start + j) / self.old.shape.q ^ self.old.shape.t)) (length buffer.old) ≡ true }
        ensures accepted { result ≡ Ok tt }
        ensures after { R.model self.new.rack.now ≡ read_drawn (R.model self.old.rack.now) start (self.old.shape.q ^ self.old.shape.t) (length buffer.old) }
        ensures words { (j : ℕ) → j < length buffer.old → slice_index buffer.new j ≡ held self.old.shape.q self.old.shape.t (R.model self.old.rack.now) (start + j) }
        ensures stays { StaysLent R.kept self.old.shape self.old.rack self.new.shape self.new.rack }
    {
        let places = self.shape.places();
        for (j, word) in buffer.iter_mut().enumerate() {
            *word = self.rack.get((start + j) / places, (start + j) % places)?;
        }
        Ok(())
    }
}

// Gets the words of the message from a start on, as many as the buffer is long, and hands them out as they stand.
pub fn read<F: Field, R: Rack>(
    shape: Shape,
    rack: &mut R,
    start: usize,
    buffer: &mut [u16],
) -> Result<Answer, Refusal>
    ensures call { Read shape.q shape.t (R.model rack.old) start buffer.old result (R.model rack.new) buffer.new }
    ensures history { ReadPromise F.arith shape.q shape.t (R.model rack.old) start result buffer.new }
    ensures stays { R.kept rack.old rack.new }
{
    fits(shape, rack)?;
    let len = buffer.len();
    let limit = shape.message_words();
    if start > limit || len > limit - start {
        return Err(Refusal::NoSuchPlace);
    }
    let mut fitted = Fitted { shape, rack };
    if !fitted.all_stand(start, len) {
        return Err(Refusal::NodeOut);
    }
    fitted.read_words(start, buffer)?;
    Ok(Answer {
        filled: 0,
        drawn: len,
    })
}
