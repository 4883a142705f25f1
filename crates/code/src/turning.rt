// Uncoupled symbols turned into coupled ones, in place.
ghost use Rattle.std.specs.Prelude.{◌≡◌, ◌*◌, ◌^◌, ◌<◌};
ghost use Rattle.code.specs.Arrays.{Stays, symbols_in, symbols_of};
ghost use Rattle.code.specs.Filling.{of_pair};
ghost use Rattle.code.specs.Steps.{NodeTurned, ScoreTurned, turn_now};
ghost use Rattle.shape.specs.Listing.{outages};
ghost use Rattle.shape.specs.Outages.{among};

use crate::arithmetic::difference;
use crate::array::{Array, ArrayMut};
use crate::planes::score;
use crate::symbols::companion;
use field::Field;
use shape::OutageList;

// The first symbol of a pair, from the uncoupled symbols of both.
fn of_pair<F: Field>(a: F::Element, b: F::Element) -> F::Element
    ensures { result ≡ of_pair F.arith a b }
{
    let u = F::coupling_element();
    let by = F::inverse(difference::<F>(F::one(), F::product(u, u)));
    F::product(by, difference::<F>(a, F::product(u, b)))
}

impl<F: Field> Array<'_, F> {
    // The symbol of a listed node, whose word holds its uncoupled symbol. The listed nodes before it are turned already.
    fn turned(&self, out: &OutageList, node: usize, place: usize) -> F::Element
        requires node { node < self.now.shape.q * self.now.shape.t }
        requires place { place < self.now.shape.q ^ self.now.shape.t }
        ensures { result ≡ turn_now F.arith self.now.shape.q self.now.shape.t (among (outages out.now)) (symbols_of F.arith self.now) node place }
    {
        let own = self.symbol(node, place);
        let Some((c, d)) = companion(self.shape, node, place) else {
            return own;
        };
        let other = self.symbol(c, d);
        if c > node && out.contains(c) {
            of_pair::<F>(own, other)
        } else {
            difference::<F>(own, F::product(F::coupling_element(), other))
        }
    }
}

impl<F: Field> ArrayMut<'_, F> {
    // Turns the symbols of a listed node in the planes of a score.
    fn turn_node(&mut self, out: &OutageList, node: usize, level: usize)
        requires { node < self.old.shape.q * self.old.shape.t }
        ensures turned { NodeTurned F.arith self.old.shape.q self.old.shape.t (among (outages out.now)) level node (self.old.shape.q ^ self.old.shape.t) (symbols_in F.arith self.old) (symbols_in F.arith self.new) }
        ensures stays { Stays F.arith self.old self.new }
    {
        for place in 0..self.shape.places() {
            if score(self.shape, out, place) == level {
                let a = self.view().turned(out, node, place);
                self.write_symbol(node, place, a);
            }
        }
    }

    // Turns the symbols of the listed nodes in the planes of a score.
    pub(crate) fn turn_score(&mut self, out: &OutageList, level: usize)
        ensures turned { ScoreTurned F.arith self.old.shape.q self.old.shape.t (among (outages out.now)) level (self.old.shape.q * self.old.shape.t) (symbols_in F.arith self.old) (symbols_in F.arith self.new) }
        ensures stays { Stays F.arith self.old self.new }
    {
        // All nodes in order, since the contract counts the nodes below a number.
        for node in 0..self.shape.nodes() {
            if out.contains(node) {
                self.turn_node(out, node, level);
            }
        }
    }
}
