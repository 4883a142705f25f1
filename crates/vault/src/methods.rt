// The calls of a vault, each on its own rack: the functions of `vault_calls`, which stay for racks that are lent.
ghost use Rattle.std.specs.Prelude.{◌≡◌, ◌*◌, ◌^◌, true, false, length, MatchResult};
ghost use Rattle.refusal.specs.declared.reason.Refusal.TheVariants.{Size};
ghost use Rattle.shape.specs.Listing.{outages as list_of};
ghost use Rattle.vault_calls.specs.Calls.{wrong_size, out_nodes, Space, Drop as Dropped, Alter, Store, Repair, Recover, Read};
ghost use Rattle.vault_calls.specs.History.{RecoverPromise, RepairPromise, ReadPromise};

use crate::owner::Vault;
use field::Field;
use rack::Rack;
use refusal::Refusal;
use shape::OutageList;
use vault_calls::{Answer, altering, coding, reading, small};

impl<F: Field + Drop, R: Rack> Vault<F, R> {
    // The nodes that are out.
    pub fn tell(&self) -> Result<OutageList, Refusal>
        ensures { MatchResult result (λ l. (wrong_size self.now.shape.q self.now.shape.t (R.model self.now.rack) ≡ false) × (l.count ≡ self.now.shape.q * self.now.shape.t) × (list_of l ≡ out_nodes self.now.shape.q self.now.shape.t (R.model self.now.rack))) (λ e. (wrong_size self.now.shape.q self.now.shape.t (R.model self.now.rack) ≡ true) × (e ≡ Size)) }
    {
        small::tell(self.shape, &self.rack)
    }

    // Makes a standing node out.
    pub fn drop_node(&mut self, node: usize) -> Result<Answer, Refusal>
        ensures call { Dropped self.old.shape.q self.old.shape.t (R.model self.old.rack) node result (R.model self.new.rack) }
        ensures stays { (self.new.shape ≡ self.old.shape) × R.kept self.old.rack self.new.rack }
    {
        small::drop_node(self.shape, &mut self.rack, node)
    }

    // Puts one code into a standing node.
    pub fn alter(&mut self, node: usize, place: usize, word: u16) -> Result<Answer, Refusal>
        ensures call { Alter F.arith self.old.shape.q self.old.shape.t (R.model self.old.rack) node place word result (R.model self.new.rack) }
        ensures stays { (self.new.shape ≡ self.old.shape) × R.kept self.old.rack self.new.rack }
    {
        altering::alter::<F, R>(self.shape, &mut self.rack, node, place, word)
    }

    // Writes the codeword that carries the message, and raises every node.
    pub fn store(&mut self, message: &[u16], space: &mut [u16]) -> Result<Answer, Refusal>
        ensures call { Store F.arith self.old.shape.q self.old.shape.t (R.model self.old.rack) message.now (length space.old) result (R.model self.new.rack) }
        ensures space { Space (self.old.shape.q * self.old.shape.t * self.old.shape.q ^ self.old.shape.t) result space.old space.new }
        ensures stays { (self.new.shape ≡ self.old.shape) × R.kept self.old.rack self.new.rack }
    {
        coding::store::<F, R>(self.shape, &mut self.rack, message, space)
    }

    // Refills the one node that is out from the places of the others that help.
    pub fn repair(&mut self, node: usize, space: &mut [u16]) -> Result<Answer, Refusal>
        ensures call { Repair F.arith self.old.shape.q self.old.shape.t (R.model self.old.rack) node (length space.old) result (R.model self.new.rack) }
        ensures history { RepairPromise F.arith self.old.shape.q self.old.shape.t (R.model self.old.rack) node (length space.old) result (R.model self.new.rack) }
        ensures space { Space (self.old.shape.q * self.old.shape.t * self.old.shape.q ^ self.old.shape.t) result space.old space.new }
        ensures stays { (self.new.shape ≡ self.old.shape) × R.kept self.old.rack self.new.rack }
    {
        coding::repair::<F, R>(self.shape, &mut self.rack, node, space)
    }

    // Refills the nodes that are out from the only codeword that agrees with the standing nodes.
    pub fn recover(&mut self, space: &mut [u16]) -> Result<Answer, Refusal>
        ensures call { Recover F.arith self.old.shape.q self.old.shape.t (R.model self.old.rack) (length space.old) result (R.model self.new.rack) }
        ensures history { RecoverPromise F.arith self.old.shape.q self.old.shape.t (R.model self.old.rack) (length space.old) result (R.model self.new.rack) }
        ensures space { Space (self.old.shape.q * self.old.shape.t * self.old.shape.q ^ self.old.shape.t) result space.old space.new }
        ensures stays { (self.new.shape ≡ self.old.shape) × R.kept self.old.rack self.new.rack }
    {
        coding::recover::<F, R>(self.shape, &mut self.rack, space)
    }

    // Gets the words of the message from a start on, as many as the buffer is long.
    pub fn read(&mut self, start: usize, buffer: &mut [u16]) -> Result<Answer, Refusal>
        ensures call { Read self.old.shape.q self.old.shape.t (R.model self.old.rack) start buffer.old result (R.model self.new.rack) buffer.new }
        ensures history { ReadPromise F.arith self.old.shape.q self.old.shape.t (R.model self.old.rack) start result buffer.new }
        ensures stays { (self.new.shape ≡ self.old.shape) × R.kept self.old.rack self.new.rack }
    {
        reading::read::<F, R>(self.shape, &mut self.rack, start, buffer)
    }
}
