// Rebuilds one node from the planes that help it.
ghost use Rattle.std.specs.Prelude.{◌≡◌, ◌*◌, ◌^◌, ◌<◌, true, cond, nat_lt};
ghost use Rattle.code.specs.Arrays.{Stays, symbols_of, words_of};
ghost use Rattle.code.specs.Calls.{Rebuilt, good_help, helper_codes};
ghost use Rattle.code.specs.Code.{helps};
ghost use Rattle.code.specs.Steps.{NodeRefilled, PlaneRefilled, Run, given};
ghost use Rattle.code.specs.Theorems.{Helps, RepairOne, RepairSome};
ghost use Rattle.shape.specs.Layout.{column as column_of};
ghost use Rattle.shape.specs.Listing.{outages};
ghost use Rattle.shape.specs.Outages.{among};

use crate::arithmetic::{difference, element};
use crate::array::{Array, ArrayMut};
use crate::listing::span;
use crate::symbols::{companion_place, spot};
use field::Field;
use refusal::Refusal;
use shape::{OutageList, Shape};
use std::marker::PhantomData;

impl<F: Field> Array<'_, F> {
    // Whether the word of a helper at a place is a code, or the place does not help a node.
    fn helper_code(&self, node: usize, helper: usize, place: usize) -> bool
        requires helper { helper < self.now.shape.q * self.now.shape.t }
        requires place { place < self.now.shape.q ^ self.now.shape.t }
        ensures { result ≡ cond (helps self.now.shape.q node place) (nat_lt (words_of self.now helper place) F.arith.size) true }
    {
        let at = spot(self.shape, helper, place);
        !self.shape.helps(node, place) || u32::from(self.words[at]) < F::codes()
    }

    // Whether the words of a helper are codes in the planes that help a node.
    fn helper_codes(&self, node: usize, helper: usize) -> bool
        requires { helper < self.now.shape.q * self.now.shape.t }
        ensures { result ≡ helper_codes F.arith self.now.shape.q self.now.shape.t (words_of self.now) node helper }
    {
        (0..self.shape.places()).all(|place| self.helper_code(node, helper, place))
    }

    // Whether every helper word of a node is a code.
    fn help_codes(&self, node: usize) -> bool
        ensures { result ≡ good_help F.arith self.now.shape.q self.now.shape.t (words_of self.now) node }
    {
        (0..self.shape.nodes()).all(|helper| helper == node || self.helper_codes(node, helper))
    }

    // The symbol that a node of the column gives the lost one in a plane, by its uncoupled symbol.
    fn refilled(&self, node: usize, helper: usize, plane: usize, b: F::Element) -> F::Element
        requires helper { helper < self.now.shape.q * self.now.shape.t }
        requires plane { plane < self.now.shape.q ^ self.now.shape.t }
        ensures { result ≡ given F.arith node helper (symbols_of F.arith self.now helper plane) b }
    {
        if helper == node {
            return b;
        }
        let a = self.symbol(helper, plane);
        F::product(F::inverse(F::coupling_element()), difference::<F>(b, a))
    }
}

impl<F: Field> ArrayMut<'_, F> {
    // Fills the words of a node that a plane gives which helps it; the list has the nodes of its column.
    fn refill_from(&mut self, column: &OutageList, node: usize, plane: usize)
        requires node { node < self.old.shape.q * self.old.shape.t }
        requires plane { plane < self.old.shape.q ^ self.old.shape.t }
        requires count { column.now.count ≡ self.old.shape.q * self.old.shape.t }
        requires nodes { Run (column_of self.old.shape.q node * self.old.shape.q) (outages column.now) self.old.shape.q }
        requires helps { Helps self.old.shape.q node plane }
        ensures refilled { PlaneRefilled F.arith self.old.shape.q self.old.shape.t (among (outages column.now)) node plane self.old.shape.q self.old.words.now self.new.words.now }
        ensures stays { Stays F.arith self.old self.new }
    {
        let solution = self.view().plane_solution(column, plane);
        for (helper, word) in column.as_slice().iter().zip(&solution) {
            let place = companion_place(self.shape, *helper, plane);
            let b = element::<F>(*word);
            let a = self.view().refilled(node, *helper, plane, b);
            self.write_symbol(node, place, a);
        }
    }

    // Fills the words of a node from the planes that help it.
    fn refill(&mut self, node: usize)
        requires { node < self.old.shape.q * self.old.shape.t }
        ensures refilled { NodeRefilled F.arith self.old.shape.q self.old.shape.t node self.old.words.now self.new.words.now }
        ensures stays { Stays F.arith self.old self.new }
    {
        let column = span(self.shape, self.shape.column(node) * self.shape.rows());
        for plane in 0..self.shape.places() {
            if self.shape.helps(node, plane) {
                self.refill_from(&column, node, plane);
            }
        }
    }
}

// Makes the words of a node the only codes with which the checks of the planes that help it hold.
pub fn rebuild<F: Field>(shape: Shape, node: usize, words: &mut [u16]) -> Result<(), Refusal>
    ensures rebuilt { Rebuilt F.arith shape.q shape.t node words.old result words.new }
    ensures repair_one { RepairOne F.arith }
    ensures repair_some { RepairSome F.arith }
{
    if words.len() < shape.words() {
        return Err(Refusal::WorkSpace);
    }
    if node >= shape.nodes() {
        return Err(Refusal::NoSuchPlace);
    }
    let mut array = ArrayMut::<F> {
        shape,
        words,
        field: PhantomData,
    };
    if !array.view().help_codes(node) {
        return Err(Refusal::BadWord);
    }
    array.refill(node);
    Ok(())
}
