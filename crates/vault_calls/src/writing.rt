// Words are written from the work space into the rack.
ghost use Rattle.std.specs.Prelude.{◌≡◌, ◌*◌, ◌^◌, ◌<◌, ◌≤◌, length, Ok};
ghost use Rattle.code.specs.Code.{laid};
ghost use Rattle.shape.specs.Listing.{outages as list_of};
ghost use Rattle.shape.specs.Outages.{among};
ghost use Rattle.vault_calls.specs.Steps.{written, written_below, StaysLent};

use crate::fitted::Fitted;
use rack::{Rack, fill_node};
use refusal::Refusal;
use shape::OutageList;

impl<'a, R: Rack> Fitted<'a, R> {
    // Writes one node from the work space and raises it.
    pub fn write_node(&mut self, node: usize, space: &[u16]) -> Result<(), Refusal>
        requires node { node < self.old.shape.q * self.old.shape.t }
        requires room { self.old.shape.q * self.old.shape.t * self.old.shape.q ^ self.old.shape.t ≤ length space.now }
        ensures accepted { result ≡ Ok tt }
        ensures after { R.model self.new.rack.now ≡ written (R.model self.old.rack.now) node (laid (self.old.shape.q ^ self.old.shape.t) space.now node) }
        ensures stays { StaysLent R.kept self.old.shape self.old.rack self.new.shape self.new.rack }
    {
        let places = self.shape.places();
        let start = node * places;
        let row = &space[start..start + places];
        fill_node(&mut *self.rack, node, row)
    }

    // Writes the listed nodes from the work space and raises them.
    pub fn write_listed(&mut self, list: &OutageList, space: &[u16]) -> Result<(), Refusal>
        requires { self.old.shape.q * self.old.shape.t * self.old.shape.q ^ self.old.shape.t ≤ length space.now }
        ensures accepted { result ≡ Ok tt }
        ensures after { R.model self.new.rack.now ≡ written_below (R.model self.old.rack.now) (among (list_of list.now)) (laid (self.old.shape.q ^ self.old.shape.t) space.now) (self.old.shape.q * self.old.shape.t) }
        ensures stays { StaysLent R.kept self.old.shape self.old.rack self.new.shape self.new.rack }
    {
        for i in 0..self.shape.nodes() {
            if list.contains(i) {
                self.write_node(i, space)?;
            }
        }
        Ok(())
    }
}
