// The tests that come before a call touches the rack.
ghost use Rattle.std.specs.Prelude.{◌≡◌, ◌*◌, true, false, not, length, MatchResult};
ghost use Rattle.rack.specs.Model.{standing};
ghost use Rattle.refusal.specs.declared.reason.Refusal.TheVariants.{Size, WorkSpace};
ghost use Rattle.shape.specs.Listing.{outages as list_of};
ghost use Rattle.shape.specs.Outages.{listed};
ghost use Rattle.vault_calls.specs.Calls.{wrong_size, short};

use rack::Rack;
use refusal::Refusal;
use shape::{OutageList, Shape};

// Whether the rack's counts are the shape's.
pub fn fits<R: Rack>(shape: Shape, rack: &R) -> Result<(), Refusal>
    ensures { MatchResult result (λ _. wrong_size shape.q shape.t (R.model rack.now) ≡ false) (λ e. (wrong_size shape.q shape.t (R.model rack.now) ≡ true) × (e ≡ Size)) }
{
    if rack.nodes() == shape.nodes() && rack.places() == shape.places() {
        Ok(())
    } else {
        Err(Refusal::Size)
    }
}

// Whether the work space has a word for each place of each node.
pub fn roomy(shape: Shape, space: &[u16]) -> Result<(), Refusal>
    ensures { MatchResult result (λ _. short shape.q shape.t (length space.now) ≡ false) (λ e. (short shape.q shape.t (length space.now) ≡ true) × (e ≡ WorkSpace)) }
{
    if space.len() < shape.words() {
        Err(Refusal::WorkSpace)
    } else {
        Ok(())
    }
}

// The nodes that are out.
pub fn outages<R: Rack>(shape: Shape, rack: &R) -> OutageList
    ensures count { result.count ≡ shape.q * shape.t }
    ensures list { list_of result ≡ listed (λ i. not (standing (R.model rack.now) i)) (shape.q * shape.t) }
{
    OutageList::filtered(shape, |i| !rack.stands(i))
}
