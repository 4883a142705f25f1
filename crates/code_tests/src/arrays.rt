// Tests of the code on slices.
use code::{checks_hold, encode, rebuild, restore};
use field::{ByteField, Field, PrimeField};
use refusal::Refusal;
use shape::{OutageList, Shape};
use std::test::Fail;

const BYTES: [u16; 17] = [1, 0, 0, 0, 0, 0, 0, 0, 3, 0, 166, 0, 83, 0, 0, 0, 7];

fn encoded<F: Field>() -> Result<[u16; 17], Refusal> {
    let mut words = [7u16; 17];
    encode::<F>(Shape::new(2, 2)?, &[1, 0, 0, 0, 0, 0, 0, 0], &mut words)?;
    Ok(words)
}

fn restored<F: Field>(mut words: [u16; 17], out: &[usize]) -> Result<[u16; 17], Refusal> {
    let shape = Shape::new(2, 2)?;
    let list = OutageList::new(shape, out)?;
    restore::<F>(shape, &list, &mut words)?;
    Ok(words)
}

#[test]
fn encodes(rt: HostRuntime) -> Result<(), Fail> {
    assert_eq!(rt; encoded::<ByteField>()?, BYTES);
    assert_eq!(rt;
        encoded::<PrimeField>()?,
        [1, 0, 0, 0, 0, 0, 0, 0, 254, 0, 87, 0, 85, 0, 0, 0, 7]
    );
    Ok(())
}

#[test]
fn restores(rt: HostRuntime) -> Result<(), Fail> {
    let mut words = BYTES;
    words[0] = 999;
    words[5] = 8;
    assert_eq!(rt; restored::<ByteField>(words, &[0, 1])?, BYTES);
    words = BYTES;
    words[12] = 84;
    assert_eq!(rt;
        restored::<ByteField>(words, &[0]),
        Err(Refusal::NoCodeword)
    );
    assert_eq!(rt; restored::<ByteField>(words, &[]), Err(Refusal::NoCodeword));
    assert!(rt; restored::<ByteField>(words, &[0, 1]).is_ok());
    assert_eq!(rt;
        restored::<ByteField>(words, &[0, 1, 2]),
        Err(Refusal::TooManyOut)
    );
    Ok(())
}

#[test]
fn rebuilds(rt: HostRuntime) -> Result<(), Fail> {
    let mut words = BYTES;
    words[0] = 999;
    words[3] = 8;
    rebuild::<ByteField>(Shape::new(2, 2)?, 0, &mut words)?;
    assert_eq!(rt; words, BYTES);
    assert_eq!(rt; checks_hold::<ByteField>(Shape::new(2, 2)?, &words)?, true);
    words[3] = 8;
    assert_eq!(rt; checks_hold::<ByteField>(Shape::new(2, 2)?, &words)?, false);
    Ok(())
}
