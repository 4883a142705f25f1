// Runs examples of a vault of two rows and two columns over the byte field, on every kind of rack, and prints a line for each.
#![tactic(auto)]

use anyhow::anyhow;
use examples::{MESSAGE, examples};
use field::ByteField;
use images::{call_on_rooms, cleared};
use rack::{Rack, TableRack};
use rack_image::{ImageRack, check_image};
use rack_pair::join;
use shape::Shape;
use std::alloc::Global;
use told::Told;
use vault::Vault;

mod examples;
mod images;
mod told;

// The lines of the examples on a rack.
fn on_rack<R: Rack + Drop>(heap: Global, shape: Shape, rack: R) -> anyhow::Result<String> {
    let mut vault = Vault::open(shape, ByteField, rack).map_err(|back| back.why)?;
    Ok(examples(heap, &mut vault)?)
}

// The lines of the examples on two racks as one.
fn on_pair<A: Rack + Drop, B: Rack + Drop>(
    heap: Global,
    shape: Shape,
    first: A,
    second: B,
) -> anyhow::Result<String> {
    on_rack(heap, shape, join(first, second).map_err(|back| back.why)?)
}

// A table rack with 4 places.
fn table(heap: Global, nodes: usize) -> anyhow::Result<TableRack> {
    TableRack::new(heap, nodes, 4).map_err(|_| anyhow!("no table"))
}

// The examples on a table, on an image, and on a pair of a table and an image.
fn on_every_rack(rt: &HostRuntime, shape: Shape) -> anyhow::Result<()> {
    let heap = rt.alloc();
    let mut whole = cleared::<48>();
    let mut half = cleared::<24>();
    let expected = on_rack(heap, shape, table(heap, 4)?)?;
    rt.print(expected.as_str())?;
    let image = on_rack(heap, shape, ImageRack::over(&mut whole, 4))?;
    let pair = on_pair(heap, shape, table(heap, 2)?, ImageRack::over(&mut half, 4))?;
    let same_image = image == expected;
    let same_pair = pair == expected;
    println!(rt;
        "the same answers as on a table: on an image {same_image}, on a pair of both {same_pair}"
    )?;
    Ok(())
}

// Bytes of an image, and one too few.
fn on_lengths(rt: &HostRuntime) -> anyhow::Result<()> {
    let bytes = cleared::<48>();
    let whole = check_image(&bytes, 4, 4).is_ok();
    println!(rt; "48 bytes are an image: {whole}")?;
    if let Err(why) = check_image(&bytes[0..47], 4, 4) {
        println!(rt; "47 bytes are {why}")?;
    }
    Ok(())
}

// Stores on two images, loses a node of the second and repairs it.
fn on_rooms(rt: &HostRuntime, shape: Shape) -> anyhow::Result<()> {
    let mut space = [0u16; 16];
    let mut first = cleared::<24>();
    let mut second = cleared::<24>();
    let stored = Told(call_on_rooms(shape, &mut first, &mut second, |vault| {
        vault.store(&MESSAGE, &mut space)
    }));
    let whole = (first, second);
    let lost = Told(call_on_rooms(shape, &mut first, &mut second, |vault| {
        vault.drop_node(2)
    }));
    let changed = second != whole.1;
    let repaired = Told(call_on_rooms(shape, &mut first, &mut second, |vault| {
        vault.repair(2, &mut space)
    }));
    let back = first == whole.0 && second == whole.1;
    println!(rt; "two images as one rack: store: {stored}; drop: {lost}; repair: {repaired}")?;
    println!(rt;
        "the bytes changed with the loss: {changed}; with the repair they are those before it: {back}"
    )?;
    Ok(())
}

// The examples on every rack, then the lengths, then the rooms.
fn run(rt: &HostRuntime) -> anyhow::Result<()> {
    let shape = Shape::new(2, 2)?;
    on_every_rack(rt, shape)?;
    on_lengths(rt)?;
    on_rooms(rt, shape)
}

fn main(rt: HostRuntime) -> anyhow::Result<()> {
    run(&rt)
}
