// Symbols of an array of words, coupled and uncoupled, and the sums of checks.
ghost use Rattle.std.specs.Prelude.{◌≡◌, ◌+◌, ◌*◌, ◌^◌, ◌<◌, ◌≢◌, MatchOption, slice_set};
ghost use Rattle.code.specs.Arrays.{Stays, symbols_in, symbols_of};
ghost use Rattle.code.specs.Code.{moment, uncoupled};
ghost use Rattle.code.specs.Filling.{known};
ghost use Rattle.code.specs.Steps.{Wrote};
ghost use Rattle.shape.specs.Layout.{row, column, digit, companion_node, companion_place};
ghost use Rattle.shape.specs.Listing.{outages};
ghost use Rattle.shape.specs.Outages.{among};

use crate::arithmetic::{element, power};
use crate::array::{Array, ArrayMut};
use field::Field;
use shape::{OutageList, Shape};

// Where the word of a node at a place lies.
pub(crate) fn spot(shape: Shape, node: usize, place: usize) -> usize
    requires node { node < shape.q * shape.t }
    requires place { place < shape.q ^ shape.t }
    ensures value { result ≡ node * shape.q ^ shape.t + place }
    ensures bound { result < shape.q * shape.t * shape.q ^ shape.t }
{
    node * shape.places() + place
}

// The node and the place that a symbol is coupled with, unless it stands alone.
pub(crate) fn companion(shape: Shape, node: usize, place: usize) -> Option<(usize, usize)>
    requires node { node < shape.q * shape.t }
    requires place { place < shape.q ^ shape.t }
    ensures { MatchOption result (row shape.q node ≡ digit shape.q place (column shape.q node)) (λ c. (row shape.q node ≢ digit shape.q place (column shape.q node)) × (c.0 ≡ companion_node shape.q node place) × (c.1 ≡ companion_place shape.q node place) × (c.0 < shape.q * shape.t) × (c.1 < shape.q ^ shape.t)) }
{
    let (c, d) = shape.companion(node, place).ok()?;
    // Where the digit is the node's row, the companion is the node itself.
    if c == node { None } else { Some((c, d)) }
}

// The place of a node's companion.
pub(crate) fn companion_place(shape: Shape, node: usize, place: usize) -> usize
    requires node { node < shape.q * shape.t }
    requires place { place < shape.q ^ shape.t }
    ensures { result ≡ companion_place shape.q node place }
{
    shape
        .companion(node, place)
        .map_or(place, |(_, other)| other)
}

impl<F: Field> Array<'_, F> {
    // The symbol of a node at a place.
    pub(crate) fn symbol(&self, node: usize, place: usize) -> F::Element
        requires node { node < self.now.shape.q * self.now.shape.t }
        requires place { place < self.now.shape.q ^ self.now.shape.t }
        ensures { result ≡ symbols_of F.arith self.now node place }
    {
        let at = spot(self.shape, node, place);
        element::<F>(self.words[at])
    }

    // The uncoupled symbol of a node at a place.
    pub(crate) fn uncoupled_symbol(&self, node: usize, place: usize) -> F::Element
        requires node { node < self.now.shape.q * self.now.shape.t }
        requires place { place < self.now.shape.q ^ self.now.shape.t }
        ensures { result ≡ uncoupled F.arith self.now.shape.q (symbols_of F.arith self.now) node place }
    {
        let own = self.symbol(node, place);
        companion(self.shape, node, place)
            .map(|(c, d)| self.symbol(c, d))
            .map_or(
                own,
                |other| F::sum(own, F::product(F::coupling_element(), other)),
            )
    }

    // Check e of a plane, summed over the nodes that are not out.
    pub(crate) fn known_sum(&self, out: &OutageList, place: usize, e: usize) -> F::Element
        requires { place < self.now.shape.q ^ self.now.shape.t }
        ensures { result ≡ moment F.arith F.arith.point (known F.arith self.now.shape.q (among (outages out.now)) (symbols_of F.arith self.now) place) (self.now.shape.q * self.now.shape.t) e }
    {
        let mut sum = F::zero();
        for node in 0..self.shape.nodes() {
            let b = if out.contains(node) {
                F::zero()
            } else {
                self.uncoupled_symbol(node, place)
            };
            sum = F::sum(sum, F::product(power::<F>(F::point(node), e), b));
        }
        sum
    }
}

impl<F: Field> ArrayMut<'_, F> {
    // Writes the code of an element into the word of a node at a place.
    pub(crate) fn write_symbol(&mut self, node: usize, place: usize, a: F::Element)
        requires node { node < self.old.shape.q * self.old.shape.t }
        requires place { place < self.old.shape.q ^ self.old.shape.t }
        ensures wrote { Wrote (self.old.shape.q ^ self.old.shape.t) node place a (symbols_in F.arith self.old) (symbols_in F.arith self.new) }
        ensures stays { Stays F.arith self.old self.new }
        ensures same { self.new.words.now ≡ slice_set self.old.words.now (node * self.old.shape.q ^ self.old.shape.t + place) (F.arith.code a) }
    {
        let at = spot(self.shape, node, place);
        self.words[at] = F::code(a);
    }
}
