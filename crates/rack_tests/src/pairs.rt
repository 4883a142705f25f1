// Pairs of any racks.
use rack::{Rack, TableRack};
use rack_image::ImageRack;
use rack_pair::{LentPair, join};
use rack_tools::{copy_node, fill_node, fill_pair};
use refusal::Refusal;
use std::process::Abort;
use std::test::Fail;

// Joins two racks of 2 nodes with 3 places each, and writes through the pair.
fn two_and_two<A: Rack + Drop, B: Rack + Drop>(
    rt: &impl Abort,
    first: A,
    second: B,
) -> Result<(), Fail> {
    let Ok(mut pair) = join(first, second) else {
        return Err(Fail::new("not joined"));
    };
    assert!(rt; pair.nodes() == 4 && pair.places() == 3);
    assert_eq!(rt; fill_node(&mut pair, 2, &[7, 8, 9]), Ok(()));
    assert!(rt; pair.stands(2) && !pair.stands(1));
    assert!(rt; pair.second.stands(0) && !pair.first.stands(0));
    let mut out = [0u16; 3];
    assert_eq!(rt; copy_node(&mut pair, 2, &mut out), Ok(()));
    assert!(rt; out == [7, 8, 9]);
    assert!(rt; pair.meter(2) == 3 && pair.second.meter(0) == 3);
    assert_eq!(rt; pair.get(1, 0), Err(Refusal::NodeOut));
    assert_eq!(rt; pair.get(4, 0), Err(Refusal::NoSuchPlace));
    Ok(())
}

// Joins two racks that are refused.
fn not_joined<A: Rack + Drop, B: Rack + Drop>(
    rt: &impl Abort,
    first: A,
    second: B,
) -> Result<(), Fail> {
    match join(first, second) {
        Ok(_) => Err(Fail::new("joined")),
        Err(e) => {
            assert_eq!(rt; e.why, Refusal::Size);
            Ok(())
        },
    }
}

#[test]
fn table_and_image(rt: HostRuntime) -> Result<(), Fail> {
    let mut bytes = [
        0xC5, 0x9D, 0, 0, 0, 0, 0, 0, 0, 0, 0xC5, 0x9D, 1, 0, 0, 0, 0, 0, 0, 0,
    ];
    let table = TableRack::new(rt.alloc(), 2, 3)?;
    two_and_two(&rt, table, ImageRack::over(&mut bytes, 3))?;
    assert!(rt; bytes[3] == 1 && bytes[4] == 7 && bytes[8] == 9);
    Ok(())
}

#[test]
fn image_and_table(rt: HostRuntime) -> Result<(), Fail> {
    let mut bytes = [
        0xC5, 0x9D, 0, 0, 0, 0, 0, 0, 0, 0, 0xC5, 0x9D, 1, 0, 0, 0, 0, 0, 0, 0,
    ];
    let table = TableRack::new(rt.alloc(), 2, 3)?;
    two_and_two(&rt, ImageRack::over(&mut bytes, 3), table)
}

#[test]
fn pair_of_pairs(rt: HostRuntime) -> Result<(), Fail> {
    let a = TableRack::new(rt.alloc(), 1, 3)?;
    let b = TableRack::new(rt.alloc(), 1, 3)?;
    let c = TableRack::new(rt.alloc(), 1, 3)?;
    let d = TableRack::new(rt.alloc(), 1, 3)?;
    let Ok(first) = join(a, b) else {
        return Err(Fail::new("first"));
    };
    let Ok(second) = join(c, d) else {
        return Err(Fail::new("second"));
    };
    two_and_two(&rt, first, second)
}

#[test]
fn lent_racks(rt: HostRuntime) -> Result<(), Fail> {
    let mut bytes = [
        0xC5, 0x9D, 0, 0, 0, 0, 0, 0, 0, 0, 0xC5, 0x9D, 1, 0, 0, 0, 0, 0, 0, 0,
    ];
    let mut table = TableRack::new(rt.alloc(), 2, 3)?;
    two_and_two(&rt, &mut table, ImageRack::over(&mut bytes, 3))?;
    assert!(rt; bytes[3] == 1 && bytes[4] == 7 && !table.stands(0));
    Ok(())
}

#[test]
fn lent_pair(rt: HostRuntime) -> Result<(), Fail> {
    let mut first = TableRack::new(rt.alloc(), 2, 3)?;
    let mut second = TableRack::new(rt.alloc(), 2, 3)?;
    assert_eq!(rt; fill_pair(&mut first, &mut second, 3, &[4, 5, 6]), Ok(()));
    assert!(rt; second.stands(1) && !first.stands(1));
    let mut pair = LentPair {
        first: &mut first,
        second: &mut second,
    };
    assert!(rt; pair.nodes() == 4 && pair.places() == 3);
    assert_eq!(rt; pair.get(3, 2), Ok(6));
    assert_eq!(rt; pair.raise(0), Ok(()));
    assert_eq!(rt; pair.raise(4), Err(Refusal::NoSuchPlace));
    assert!(rt; first.stands(0) && second.meter(1) == 1);
    Ok(())
}

#[test]
fn unlike_racks(rt: HostRuntime) -> Result<(), Fail> {
    not_joined(
        &rt,
        TableRack::new(rt.alloc(), 2, 3)?,
        TableRack::new(rt.alloc(), 2, 4)?,
    )?;
    not_joined(
        &rt,
        TableRack::new(rt.alloc(), 8, 3)?,
        TableRack::new(rt.alloc(), 9, 3)?,
    )
}
