// The call that makes a node out, and the one that only tells.
ghost use Rattle.std.specs.Prelude.{◌≡◌, ◌*◌, true, false, MatchResult};
ghost use Rattle.refusal.specs.declared.reason.Refusal.TheVariants.{Size};
ghost use Rattle.shape.specs.Listing.{outages as list_of};
ghost use Rattle.vault_calls.specs.Calls.{wrong_size, out_nodes, Drop};

use crate::answer::Answer;
use crate::sizes::{fits, outages};
use rack::Rack;
use refusal::Refusal;
use shape::{OutageList, Shape};

// The nodes that are out.
pub fn tell<R: Rack>(shape: Shape, rack: &R) -> Result<OutageList, Refusal>
    ensures { MatchResult result (λ l. (wrong_size shape.q shape.t (R.model rack.now) ≡ false) × (l.count ≡ shape.q * shape.t) × (list_of l ≡ out_nodes shape.q shape.t (R.model rack.now))) (λ e. (wrong_size shape.q shape.t (R.model rack.now) ≡ true) × (e ≡ Size)) }
{
    fits(shape, rack)?;
    Ok(outages(shape, rack))
}

// Makes a standing node out.
pub fn drop_node<R: Rack>(shape: Shape, rack: &mut R, node: usize) -> Result<Answer, Refusal>
    ensures call { Drop shape.q shape.t (R.model rack.old) node result (R.model rack.new) }
    ensures stays { R.kept rack.old rack.new }
{
    fits(shape, rack)?;
    if node >= shape.nodes() {
        return Err(Refusal::NoSuchPlace);
    }
    if !rack.stands(node) {
        return Err(Refusal::NodeOut);
    }
    rack.take_out(node)?;
    Ok(Answer::default())
}
