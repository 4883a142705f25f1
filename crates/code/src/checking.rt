// Tests: whether words are codes, and whether an array is a codeword.
ghost use Rattle.std.specs.Prelude.{◌≡◌, ℕ, ◌*◌, ◌^◌, ◌<◌};
ghost use Rattle.code.specs.Arrays.{symbols_of};
ghost use Rattle.code.specs.Calls.{Checked, Tells, all_codes, first_codes};
ghost use Rattle.code.specs.Code.{Checks, check};

use crate::array::Array;
use field::Field;
use refusal::Refusal;
use shape::{OutageList, Shape};
use std::marker::PhantomData;

// Whether every word is a code.
pub fn all_codes<F: Field>(words: &[u16]) -> bool
    ensures { result ≡ all_codes F.arith words.now }
{
    let size = F::codes();
    words.iter().all(|word| u32::from(*word) < size)
}

impl<F: Field> Array<'_, F> {
    // Whether the words of all nodes are codes.
    pub(crate) fn all_codes(&self) -> bool
        ensures { result ≡ first_codes F.arith self.now.words.now (self.now.shape.q * self.now.shape.t * self.now.shape.q ^ self.now.shape.t) }
    {
        all_codes::<F>(&self.words[..self.shape.words()])
    }

    // Whether every check of a plane is zero.
    fn plane_holds(&self, place: usize) -> bool
        requires { place < self.now.shape.q ^ self.now.shape.t }
        ensures { Tells result ((e : ℕ) → e < self.now.shape.q → check F.arith self.now.shape.q self.now.shape.t (symbols_of F.arith self.now) place e ≡ F.arith.zero) }
    {
        let none = OutageList::none(self.shape);
        (0..self.shape.rows()).all(|e| F::code(self.known_sum(&none, place, e)) == 0)
    }

    // Whether every check of every plane is zero.
    pub(crate) fn planes_hold(&self) -> bool
        ensures { Tells result (Checks F.arith self.now.shape.q self.now.shape.t self.now.shape.q (symbols_of F.arith self.now)) }
    {
        (0..self.shape.places()).all(|place| self.plane_holds(place))
    }
}

// Whether the first words are a codeword.
pub fn checks_hold<F: Field>(shape: Shape, words: &[u16]) -> Result<bool, Refusal>
    ensures { Checked F.arith shape.q shape.t words.now result }
{
    if words.len() < shape.words() {
        return Err(Refusal::WorkSpace);
    }
    let array = Array::<F> {
        shape,
        words,
        field: PhantomData,
    };
    Ok(array.all_codes() && array.planes_hold())
}
