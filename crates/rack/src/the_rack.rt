// A rack of nodes: what every rack means.
ghost use Rattle.std.specs.Prelude.{◌≡◌, true, false};
ghost use Rattle.rack.specs.Model.{Model, Keeping, standing, metered, got, after_get, done, within, node_within, after_put, after_flag};

use refusal::Refusal;

pub trait Rack {
    // What the rack holds.
    ghost model: { Self → Model };

    // The second is the first at another time: on the same lent memory, as well formed, with the same counts.
    ghost kept: { Self → Self → Type 0 };

    // How many nodes there are.
    fn nodes(&self) -> usize
        ensures { result ≡ (model self.now).nodes };

    // How many places each node has.
    fn places(&self) -> usize
        ensures { result ≡ (model self.now).places };

    // Whether the node stands; one that does not exist does not.
    fn stands(&self, node: usize) -> bool
        ensures { result ≡ standing (model self.now) node };

    // How often the node was read, modulo 2^64; 0 for one that does not exist.
    fn meter(&self, node: usize) -> u64
        ensures { result ≡ metered (model self.now) node };

    // The word at a place of a standing node, whose meter rises by one.
    fn get(&mut self, node: usize, place: usize) -> Result<u16, Refusal>
        ensures answer { result ≡ got (model self.old) node place }
        ensures after { model self.new ≡ after_get (model self.old) node place }
        ensures stays { kept self.old self.new };

    // Sets the word at a place of a node, whether it stands or not.
    fn put(&mut self, node: usize, place: usize, word: u16) -> Result<(), Refusal>
        ensures answer { result ≡ done (within (model self.old) node place) }
        ensures after { model self.new ≡ after_put (model self.old) node place word }
        ensures stays { kept self.old self.new };

    // Makes a node stand, or makes it out.
    fn set_standing(&mut self, node: usize, standing: bool) -> Result<(), Refusal>
        ensures answer { result ≡ done (node_within (model self.old) node) }
        ensures after { model self.new ≡ after_flag (model self.old) node standing }
        ensures stays { kept self.old self.new };

    // Makes a node out.
    fn take_out(&mut self, node: usize) -> Result<(), Refusal>
        ensures answer { result ≡ done (node_within (model self.old) node) }
        ensures after { model self.new ≡ after_flag (model self.old) node false }
        ensures stays { kept self.old self.new }
    {
        self.set_standing(node, false)
    }

    // Makes a node stand.
    fn raise(&mut self, node: usize) -> Result<(), Refusal>
        ensures answer { result ≡ done (node_within (model self.old) node) }
        ensures after { model self.new ≡ after_flag (model self.old) node true }
        ensures stays { kept self.old self.new }
    {
        self.set_standing(node, true)
    }

    // At another time it is the same rack, however often.
    ghost keeping: { Keeping model kept };
}
