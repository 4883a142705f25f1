// The calls that write nodes: store, repair and recover.
ghost use Rattle.std.specs.Prelude.{◌*◌, ◌^◌, length};
ghost use Rattle.vault_calls.specs.Calls.{Space, Store, Repair, Recover};
ghost use Rattle.vault_calls.specs.History.{RecoverPromise, RepairPromise};

use crate::answer::Answer;
use crate::fitted::Fitted;
use crate::sizes::{fits, outages, roomy};
use code::{encode, rebuild, restore};
use field::Field;
use rack::Rack;
use refusal::Refusal;
use shape::{OutageList, Shape};

// Writes the codeword that carries the message, and raises every node.
pub fn store<F: Field, R: Rack>(
    shape: Shape,
    rack: &mut R,
    message: &[u16],
    space: &mut [u16],
) -> Result<Answer, Refusal>
    ensures call { Store F.arith shape.q shape.t (R.model rack.old) message.now (length space.old) result (R.model rack.new) }
    ensures space { Space (shape.q * shape.t * shape.q ^ shape.t) result space.old space.new }
    ensures stays { R.kept rack.old rack.new }
{
    fits(shape, rack)?;
    encode::<F>(shape, message, space)?;
    let mut fitted = Fitted { shape, rack };
    fitted.write_listed(&OutageList::filtered(shape, |_| true), space)?;
    Ok(Answer {
        filled: shape.nodes(),
        drawn: 0,
    })
}

// Refills the one node that is out from the places of the others that help.
pub fn repair<F: Field, R: Rack>(
    shape: Shape,
    rack: &mut R,
    node: usize,
    space: &mut [u16],
) -> Result<Answer, Refusal>
    ensures call { Repair F.arith shape.q shape.t (R.model rack.old) node (length space.old) result (R.model rack.new) }
    ensures history { RepairPromise F.arith shape.q shape.t (R.model rack.old) node (length space.old) result (R.model rack.new) }
    ensures space { Space (shape.q * shape.t * shape.q ^ shape.t) result space.old space.new }
    ensures stays { R.kept rack.old rack.new }
{
    fits(shape, rack)?;
    roomy(shape, space)?;
    if node >= shape.nodes() {
        return Err(Refusal::NoSuchPlace);
    }
    if rack.stands(node) {
        return Err(Refusal::NodeStands);
    }
    if outages(shape, rack).len() > 1 {
        return Err(Refusal::AnotherOut);
    }
    let mut fitted = Fitted { shape, rack };
    fitted.draw(&|place| shape.helps(node, place), space)?;
    rebuild::<F>(shape, node, space)?;
    fitted.write_node(node, space)?;
    Ok(Answer {
        filled: 1,
        drawn: (shape.nodes() - 1) * shape.helper_places(),
    })
}

// Refills the nodes that are out from the only codeword that agrees with the standing nodes.
pub fn recover<F: Field, R: Rack>(
    shape: Shape,
    rack: &mut R,
    space: &mut [u16],
) -> Result<Answer, Refusal>
    ensures call { Recover F.arith shape.q shape.t (R.model rack.old) (length space.old) result (R.model rack.new) }
    ensures history { RecoverPromise F.arith shape.q shape.t (R.model rack.old) (length space.old) result (R.model rack.new) }
    ensures space { Space (shape.q * shape.t * shape.q ^ shape.t) result space.old space.new }
    ensures stays { R.kept rack.old rack.new }
{
    fits(shape, rack)?;
    roomy(shape, space)?;
    let out = outages(shape, rack);
    let lost = out.len();
    if lost > shape.rows() {
        return Err(Refusal::TooManyOut);
    }
    let mut fitted = Fitted { shape, rack };
    fitted.draw(&|_| true, space)?;
    restore::<F>(shape, &out, space)?;
    fitted.write_listed(&out, space)?;
    Ok(Answer {
        filled: lost,
        drawn: (shape.nodes() - lost) * shape.places(),
    })
}
