// Lists of nodes that follow each other.
ghost use Rattle.std.specs.Prelude.{◌≡◌, ◌+◌, ◌*◌, ◌≤◌};
ghost use Rattle.code.specs.Steps.{Run};
ghost use Rattle.shape.specs.Listing.{outages};

use shape::{OutageList, Shape};

// As many nodes as there are rows, from the first on.
pub(crate) fn span(shape: Shape, first: usize) -> OutageList
    requires { first + shape.q ≤ shape.q * shape.t }
    ensures count { result.count ≡ shape.q * shape.t }
    ensures nodes { Run first (outages result) shape.q }
{
    let rows = shape.rows();
    OutageList::filtered(shape, |node| first <= node && node < first + rows)
}
