// Tests of the two fields.
use field::{ByteField, Field, PrimeField};
use refusal::Refusal;
use std::test::Fail;

fn times<F: Field>(a: u16, b: u16) -> Result<u16, Refusal> {
    Ok(F::code(F::product(F::element(a)?, F::element(b)?)))
}

fn inverted<F: Field>(a: u16) -> Result<u16, Refusal> {
    Ok(F::code(F::inverse(F::element(a)?)))
}

#[test]
fn bytes(rt: HostRuntime) -> Result<(), Fail> {
    assert_eq!(rt; times::<ByteField>(2, 128)?, 29);
    assert_eq!(rt; times::<ByteField>(5, 83)?, 2);
    assert_eq!(rt; inverted::<ByteField>(0)?, 0);
    assert_eq!(rt; times::<ByteField>(1, 256), Err(Refusal::NoCode));
    Ok(())
}

#[test]
fn modulo_257(rt: HostRuntime) -> Result<(), Fail> {
    assert_eq!(rt; times::<PrimeField>(3, 86)?, 1);
    assert_eq!(rt; inverted::<PrimeField>(3)?, 86);
    assert_eq!(rt; inverted::<PrimeField>(0)?, 0);
    assert_eq!(rt; times::<PrimeField>(256, 256)?, 1);
    assert_eq!(rt; times::<PrimeField>(1, 257), Err(Refusal::NoCode));
    Ok(())
}
