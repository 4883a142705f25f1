// The byte field: polynomials over bits, modulo hexadecimal 11D.
ghost use Rattle.std.specs.Prelude.{◌≡◌, ◌<◌, refl};
ghost use Rattle.field.specs.ByteField.{byte_arith, multiply, power, x_to};
ghost use Rattle.field.specs.Bytes.{byte_laws};

use crate::Field;
use crate::element::Byte;
use crate::exponents::EXPONENTS;
use crate::powers::POWERS;

// The code of x to the e.
fn power_of_x(e: usize) -> u16
    requires { e < 255 }
    ensures { result ≡ x_to e }
{
    u16::from(POWERS[e])
}

// The exponent of an element that is not zero.
fn exponent(a: Byte) -> usize
    requires { 0 < a.value }
    ensures below { result < 255 }
    ensures gives { x_to result ≡ a.value }
{
    EXPONENTS[a.value as usize] as usize
}

// The code of the product.
fn times(a: Byte, b: Byte) -> u16
    ensures { result ≡ multiply a.value b.value }
{
    if a.value == 0 || b.value == 0 {
        return 0;
    }
    let e = exponent(a) + exponent(b);
    if e < 255 {
        power_of_x(e)
    } else {
        power_of_x(e - 255)
    }
}

// The code of the inverse.
fn inverted(a: Byte) -> u16
    ensures { result ≡ power 254 a.value }
{
    if a.value == 0 {
        return 0;
    }
    let e = exponent(a);
    if e == 0 { 1 } else { power_of_x(255 - e) }
}

#[derive(Clone, Copy)]
pub struct ByteField;

impl Field for ByteField {
    type Element = Byte;

    const SIZE: u32 = 256;

    ghost SIZE = { 256 };

    const COUPLING: u16 = 2;

    ghost COUPLING = { 2 };

    ghost arith = { byte_arith };

    ghost sized = { refl };

    ghost coupled = { refl };

    ghost lawful = { byte_laws };

    fn of(word: u16) -> Byte {
        Byte::reduced(u32::from(word))
    }

    fn code(a: Byte) -> u16 {
        a.value
    }

    fn sum(a: Byte, b: Byte) -> Byte {
        Byte::reduced(u32::from(a.value ^ b.value))
    }

    fn negative(a: Byte) -> Byte {
        a
    }

    fn product(a: Byte, b: Byte) -> Byte {
        Byte::reduced(u32::from(times(a, b)))
    }

    fn inverse(a: Byte) -> Byte {
        Byte::reduced(u32::from(inverted(a)))
    }

    fn point(i: usize) -> Byte {
        Byte::small(i)
    }
}
