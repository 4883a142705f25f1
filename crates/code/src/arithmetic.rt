// Elements of words, and powers.
ghost use Rattle.std.specs.Prelude.{◌≡◌};
ghost use Rattle.code.specs.Code.{minus, power};
ghost use Rattle.code.specs.Reading.{read};

use field::Field;

// The element of a word; zero for a word that is no code.
pub(crate) fn element<F: Field>(word: u16) -> F::Element
    ensures { result ≡ read F.arith word }
{
    F::element(word).unwrap_or(F::zero())
}

// a - b
pub(crate) fn difference<F: Field>(a: F::Element, b: F::Element) -> F::Element
    ensures { result ≡ minus F.arith a b }
{
    F::sum(a, F::negative(b))
}

// The e-th power of an element; power 0 is one.
pub(crate) fn power<F: Field>(a: F::Element, e: usize) -> F::Element
    ensures { result ≡ power F.arith a e }
{
    let mut result = F::one();
    for _ in 0..e {
        result = F::product(a, result);
    }
    result
}
