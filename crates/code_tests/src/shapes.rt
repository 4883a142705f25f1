// Tests of shapes and outage lists.
use refusal::Refusal;
use shape::{OutageList, Shape};
use std::test::Fail;

fn nodes(q: usize, t: usize) -> Result<usize, Refusal> {
    Ok(Shape::new(q, t)?.nodes())
}

// How many of four nodes are out.
fn out(nodes: &[usize]) -> Result<usize, Refusal> {
    let shape = Shape::new(2, 2)?;
    Ok(OutageList::new(shape, nodes)?.len())
}

#[test]
fn shapes(rt: HostRuntime) {
    assert_eq!(rt; nodes(2, 8), Ok(16));
    assert_eq!(rt; nodes(8, 2), Ok(16));
    assert_eq!(rt; nodes(3, 6), Err(Refusal::Shape));
    assert_eq!(rt; nodes(1, 9), Err(Refusal::Shape));
    assert_eq!(rt; nodes(usize::MAX, 2), Err(Refusal::Shape));
    assert_eq!(rt; Refusal::Shape.number(), 1);
}

#[test]
fn companions(rt: HostRuntime) -> Result<(), Fail> {
    let shape = Shape::new(2, 2)?;
    assert_eq!(rt; shape.digit(2, 0), 0);
    assert_eq!(rt; shape.digit(2, 1), 1);
    assert_eq!(rt; shape.digit(2, usize::MAX), 0);
    let (node, place) = shape.companion(3, 0)?;
    assert_eq!(rt; node, 2);
    assert_eq!(rt; place, 2);
    Ok(())
}

#[test]
fn outages(rt: HostRuntime) {
    assert_eq!(rt; out(&[]), Ok(0));
    assert_eq!(rt; out(&[0, 1, 2, 3]), Ok(4));
    assert_eq!(rt; out(&[1, 0]), Err(Refusal::NoSuchPlace));
    assert_eq!(rt; out(&[1, 1]), Err(Refusal::NoSuchPlace));
    assert_eq!(rt; out(&[0, 4]), Err(Refusal::NoSuchPlace));
}
