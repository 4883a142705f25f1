// Restores the words of listed nodes from those of the others.
ghost use Rattle.std.specs.Prelude.{◌≡◌, ◌*◌, ◌^◌, ◌<◌, length};
ghost use Rattle.code.specs.Arrays.{Stays, symbols_in, words_in};
ghost use Rattle.code.specs.Calls.{Restored};
ghost use Rattle.code.specs.Code.{Checks};
ghost use Rattle.code.specs.Steps.{Cleared, NodeCleared, ScoreSolved};
ghost use Rattle.code.specs.Theorems.{Agree, OnlyOne};
ghost use Rattle.shape.specs.Listing.{outages};
ghost use Rattle.shape.specs.Outages.{among};

use crate::array::ArrayMut;
use crate::planes::score;
use field::Field;
use refusal::Refusal;
use shape::{OutageList, Shape};
use std::marker::PhantomData;

impl<F: Field> ArrayMut<'_, F> {
    // Sets the words of a node to 0.
    fn clear_node(&mut self, node: usize)
        requires { node < self.old.shape.q * self.old.shape.t }
        ensures cleared { NodeCleared (self.old.shape.q ^ self.old.shape.t) node (self.old.shape.q ^ self.old.shape.t) (words_in self.old) (words_in self.new) }
        ensures stays { Stays F.arith self.old self.new }
    {
        let places = self.shape.places();
        let start = node * places;
        self.words[start..start + places].fill(0);
    }

    // Sets the words of the listed nodes to 0.
    fn clear(&mut self, out: &OutageList)
        ensures cleared { Cleared (self.old.shape.q ^ self.old.shape.t) (among (outages out.now)) (self.old.shape.q * self.old.shape.t) (words_in self.old) (words_in self.new) }
        ensures stays { Stays F.arith self.old self.new }
    {
        // All nodes in order, since the contract counts the nodes below a number.
        for node in 0..self.shape.nodes() {
            if out.contains(node) {
                self.clear_node(node);
            }
        }
    }

    // Writes the uncoupled symbols of the listed nodes in the planes of a score.
    fn solve_score(&mut self, out: &OutageList, level: usize)
        requires { out.now.count ≡ self.old.shape.q * self.old.shape.t }
        ensures solved { ScoreSolved F.arith self.old.shape.q self.old.shape.t (among (outages out.now)) level (self.old.shape.q ^ self.old.shape.t) (symbols_in F.arith self.old) (symbols_in F.arith self.new) }
        ensures stays { Stays F.arith self.old self.new }
    {
        for place in 0..self.shape.places() {
            if score(self.shape, out, place) == level {
                self.solve_plane(out, place);
            }
        }
    }

    // Fills the words of the listed nodes, plane by plane with rising score.
    fn fill(&mut self, out: &OutageList)
        requires { out.now.count ≡ self.old.shape.q * self.old.shape.t }
        ensures checks { Checks F.arith self.old.shape.q self.old.shape.t (length (outages out.now)) (symbols_in F.arith self.new) }
        ensures kept { Agree F.arith self.old.shape.q self.old.shape.t (among (outages out.now)) (symbols_in F.arith self.new) (symbols_in F.arith self.old) }
        ensures stays { Stays F.arith self.old self.new }
    {
        for level in 0..self.shape.columns() + 1 {
            self.solve_score(out, level);
            self.turn_score(out, level);
        }
    }
}

// Makes the first words the only codeword that agrees with the nodes that are not listed, at most q being listed.
pub fn restore<F: Field>(shape: Shape, out: &OutageList, words: &mut [u16]) -> Result<(), Refusal>
    ensures restored { Restored F.arith shape.q shape.t out.now.count (outages out.now) words.old result words.new }
    ensures only_one { OnlyOne F.arith }
{
    if words.len() < shape.words() {
        return Err(Refusal::WorkSpace);
    }
    if out.nodes() != shape.nodes() {
        return Err(Refusal::NoSuchPlace);
    }
    if out.len() > shape.rows() {
        return Err(Refusal::TooManyOut);
    }
    let mut array = ArrayMut::<F> {
        shape,
        words,
        field: PhantomData,
    };
    array.clear(out);
    if !array.view().all_codes() {
        return Err(Refusal::BadWord);
    }
    array.fill(out);
    if array.view().planes_hold() {
        Ok(())
    } else {
        Err(Refusal::NoCodeword)
    }
}
