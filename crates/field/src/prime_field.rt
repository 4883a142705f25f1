// The prime field: arithmetic modulo 257.
ghost use Rattle.std.specs.Prelude.{◌≡◌, refl};
ghost use Rattle.field.specs.PrimeField.{power, prime_arith};
ghost use Rattle.field.specs.Residues.{prime_laws};

use crate::Field;
use crate::element::Residue;
use crate::inverses::INVERSES;

// The code of the inverse.
fn inverted(a: Residue) -> u16
    ensures { result ≡ power 255 a.value }
{
    INVERSES[a.value as usize]
}

#[derive(Clone, Copy)]
pub struct PrimeField;

impl Field for PrimeField {
    type Element = Residue;

    const SIZE: u32 = 257;

    ghost SIZE = { 257 };

    const COUPLING: u16 = 2;

    ghost COUPLING = { 2 };

    ghost arith = { prime_arith };

    ghost sized = { refl };

    ghost coupled = { refl };

    ghost lawful = { prime_laws };

    // This and `code` are the other field's too, each at its own element.
    fn of(word: u16) -> Residue {
        Residue::reduced(u32::from(word))
    }

    fn code(a: Residue) -> u16 {
        a.value
    }

    fn sum(a: Residue, b: Residue) -> Residue {
        Residue::reduced(u32::from(a.value) + u32::from(b.value))
    }

    fn negative(a: Residue) -> Residue {
        Residue::reduced(257 - u32::from(a.value))
    }

    fn product(a: Residue, b: Residue) -> Residue {
        Residue::reduced(u32::from(a.value) * u32::from(b.value))
    }

    fn inverse(a: Residue) -> Residue {
        Residue::reduced(u32::from(inverted(a)))
    }

    fn point(i: usize) -> Residue {
        Residue::small(i)
    }
}
