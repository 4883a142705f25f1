// The table rack.
use rack::{Node, Rack, TableError, TableRack};
use refusal::Refusal;
use std::test::Fail;

#[test]
fn counts_fit(rt: HostRuntime) {
    let size = Some(TableError::Refused(Refusal::Size));
    assert_eq!(rt; TableRack::new(rt.alloc(), 0, 1).err(), size);
    assert_eq!(rt; TableRack::new(rt.alloc(), 17, 1).err(), size);
    assert_eq!(rt; TableRack::new(rt.alloc(), 1, 0).err(), size);
    assert_eq!(rt; TableRack::new(rt.alloc(), 1, 257).err(), size);
    assert_eq!(rt; TableRack::new(rt.alloc(), 16, 256).err(), None);
}

#[test]
fn meters_return_to_zero(rt: HostRuntime) {
    let mut node = Node {
        standing: true,
        meter: u64::MAX,
    };
    node.draw();
    assert_eq!(rt;
        node,
        Node {
            standing: true,
            meter: 0,
        }
    );
    node.draw();
    assert!(rt; node.meter == 1);
}

#[test]
fn words_are_kept(rt: HostRuntime) -> Result<(), Fail> {
    let mut rack = TableRack::new(rt.alloc(), 3, 2)?;
    assert!(rt; rack.put(2, 1, 65535) == Ok(()));
    assert!(rt; rack.get(2, 1) == Err(Refusal::NodeOut));
    assert!(rt; rack.meter(2) == 0);
    assert!(rt; rack.raise(2) == Ok(()));
    assert!(rt; rack.get(2, 1) == Ok(65535));
    assert!(rt; rack.get(2, 0) == Ok(0));
    assert!(rt; rack.meter(2) == 2);
    assert!(rt; rack.take_out(2) == Ok(()));
    assert!(rt; !rack.stands(2) && !rack.stands(3));
    assert!(rt; rack.put(3, 0, 1) == Err(Refusal::NoSuchPlace));
    Ok(())
}
