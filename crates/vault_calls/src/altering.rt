// The call that changes one word.
ghost use Rattle.vault_calls.specs.Calls.{Alter};

use crate::answer::Answer;
use crate::sizes::fits;
use field::Field;
use rack::Rack;
use refusal::Refusal;
use shape::Shape;

// Puts one code into a standing node.
pub fn alter<F: Field, R: Rack>(
    shape: Shape,
    rack: &mut R,
    node: usize,
    place: usize,
    word: u16,
) -> Result<Answer, Refusal>
    ensures call { Alter F.arith shape.q shape.t (R.model rack.old) node place word result (R.model rack.new) }
    ensures stays { R.kept rack.old rack.new }
{
    fits(shape, rack)?;
    if u32::from(word) >= F::codes() {
        return Err(Refusal::NoCode);
    }
    if node >= shape.nodes() || place >= shape.places() {
        return Err(Refusal::NoSuchPlace);
    }
    if !rack.stands(node) {
        return Err(Refusal::NodeOut);
    }
    rack.put(node, place, word)?;
    Ok(Answer::default())
}
