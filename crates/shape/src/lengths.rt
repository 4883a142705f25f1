// How many nodes a list of nodes that are out knows of, and which are out.
ghost use Rattle.std.specs.Prelude.{◌≡◌, length};
ghost use Rattle.shape.specs.Listing.{outages};

use crate::outages::OutageList;

impl OutageList {
    // How many nodes there are, out or not.
    pub fn nodes(&self) -> usize
        ensures { result ≡ self.now.count }
    {
        self.count
    }

    // The nodes that are out, rising.
    pub fn as_slice(&self) -> &[usize]
        ensures { result.now ≡ outages self.now }
    {
        &self.numbers[..self.len]
    }

    // How many nodes are out.
    pub fn len(&self) -> usize
        ensures { result ≡ length (outages self.now) }
    {
        self.as_slice().len()
    }
}
