// Arrays: words laid out by the nodes and places of a shape, and read as elements of a field.
ghost use Rattle.std.specs.Prelude.{◌≡◌, ◌*◌, ◌^◌, ◌≤◌, length};

use shape::Shape;
use std::marker::PhantomData;

// An array to be read. Words past those of the last node are no part of it.
// Nodes and places stay plain numbers: types of their own would hold the shape again, and each call would ask that it is the array's.
#[derive(Drop)]
pub(crate) struct Array<'a, F> {
    pub(crate) shape: Shape,
    pub(crate) words: &'a [u16],
    pub(crate) field: PhantomData<F>,
    ghost room: { shape.q * shape.t * shape.q ^ shape.t ≤ length words.now },
}

// An array to be written.
// Two structs, since one over `&[u16]` can be shared and one over `&mut [u16]` cannot; reading goes by `view`.
#[derive(Drop)]
pub(crate) struct ArrayMut<'a, F> {
    pub(crate) shape: Shape,
    pub(crate) words: &'a mut [u16],
    pub(crate) field: PhantomData<F>,
    ghost room: { shape.q * shape.t * shape.q ^ shape.t ≤ length words.now },
}

impl<F> ArrayMut<'_, F> {
    // The same array, to be read.
    pub(crate) fn view(&self) -> Array<'_, F>
        ensures shape { result.shape ≡ self.now.shape }
        ensures words { result.words.now ≡ self.now.words.now }
    {
        Array {
            shape: self.shape,
            words: &*self.words,
            field: PhantomData,
        }
    }
}
