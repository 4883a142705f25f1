// Finite fields whose elements are numbered by codes.
#![tactic(auto)]

ghost use Rattle.std.specs.Prelude.{◌≡◌, ℕ, ◌<◌, ◌≤◌, MatchResult};
ghost use Rattle.field.specs.Field.{Arith, Laws};
ghost use Rattle.refusal.specs.declared.reason.Refusal.TheVariants.{NoCode};

use refusal::Refusal;

mod byte_field;
mod element;
mod exponents;
mod inverses;
mod powers;
mod prime_field;

pub use byte_field::ByteField;
pub use element::{Byte, Residue};
pub use prime_field::PrimeField;

// A field. Its elements are made from words; arithmetic on elements asks nothing.
pub trait Field {
    type Element: Copy;

    // The number of codes.
    const SIZE: u32;

    ghost SIZE: { ℕ };

    // The code of the coupling element.
    const COUPLING: u16;

    ghost COUPLING: { ℕ };

    // The parts of the field.
    ghost arith: { Arith Self.Element };

    // The element of a code; a word that is no code is some element, whichever the field takes.
    fn of(word: u16) -> Self::Element
        ensures { word < arith.size → result ≡ arith.of word };

    // The code of an element.
    fn code(a: Self::Element) -> u16
        ensures { result ≡ arith.code a };

    // The sum of two elements.
    fn sum(a: Self::Element, b: Self::Element) -> Self::Element
        ensures { result ≡ arith.sum a b };

    // The element whose sum with this one is zero.
    fn negative(a: Self::Element) -> Self::Element
        ensures { result ≡ arith.negative a };

    // The product of two elements.
    fn product(a: Self::Element, b: Self::Element) -> Self::Element
        ensures { result ≡ arith.product a b };

    // The inverse of zero is zero.
    fn inverse(a: Self::Element) -> Self::Element
        ensures { result ≡ arith.inverse a };

    // The point of a number; above 15 it is zero.
    fn point(i: usize) -> Self::Element
        ensures { result ≡ arith.point i };

    // `SIZE`, with its meaning.
    fn codes() -> u32
        ensures { result ≡ arith.size }
    {
        Self::SIZE
    }

    // `COUPLING`, with its meaning.
    fn coupling_code() -> u16
        ensures { result ≡ arith.code arith.coupling }
    {
        Self::COUPLING
    }

    // The element of a code; a word that is no code is refused.
    fn element(word: u16) -> Result<Self::Element, Refusal>
        ensures { MatchResult result (λ a. (word < arith.size) × (a ≡ arith.of word)) (λ e. (arith.size ≤ word) × (e ≡ NoCode)) }
    {
        if u32::from(word) < Self::SIZE {
            Ok(Self::of(word))
        } else {
            Err(Refusal::NoCode)
        }
    }

    // The element whose code is 0.
    fn zero() -> Self::Element
        ensures { result ≡ arith.zero }
    {
        Self::of(0)
    }

    // The element whose code is 1.
    fn one() -> Self::Element
        ensures { result ≡ arith.one }
    {
        Self::of(1)
    }

    // The coupling element.
    fn coupling_element() -> Self::Element
        ensures { result ≡ arith.coupling }
    {
        Self::of(Self::COUPLING)
    }

    // The constants are the field's own.
    ghost sized: { SIZE ≡ arith.size };

    ghost coupled: { COUPLING ≡ arith.code arith.coupling };

    // The parts keep the laws of a field.
    ghost lawful: { Laws arith };
}
