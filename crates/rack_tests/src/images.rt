// An image of 4 nodes with 4 places, and where it is malformed.
use rack::Rack;
use rack_image::{ImageRack, check_image, check_images};
use rack_tools::{fill_image, fill_rooms, move_between_images};
use refusal::{Cause, Fault, Refusal};
use std::process::Abort;

// The image of a rack whose nodes are out and whose words are 0.
fn blank() -> [u8; 48] {
    let mut bytes = [0; 48];
    for node in 0..4 {
        bytes[12 * node] = 0xC5;
        bytes[12 * node + 1] = 0x9D;
        bytes[12 * node + 2] = node as u8;
    }
    bytes
}

fn fault(room: u8, record: usize, byte: usize, cause: Cause) -> Result<(), Refusal> {
    Err(Refusal::Image(Fault {
        room,
        record,
        byte,
        cause,
    }))
}

#[test]
fn length_comes_first(rt: HostRuntime) {
    let mut bytes = blank();
    assert_eq!(rt; check_image(&bytes, 4, 4), Ok(()));
    assert_eq!(rt;
        check_image(&bytes[0..47], 4, 4),
        fault(0, 0, 0, Cause::Length)
    );
    bytes[0] = 0;
    assert_eq!(rt;
        check_image(&bytes[0..47], 4, 4),
        fault(0, 0, 0, Cause::Length)
    );
    assert_eq!(rt; check_image(&bytes, 0, 4), Err(Refusal::Size));
    assert_eq!(rt; check_image(&bytes, 17, 4), Err(Refusal::Size));
    assert_eq!(rt; check_image(&bytes, 4, 0), Err(Refusal::Size));
    assert_eq!(rt; check_image(&bytes, 4, 257), Err(Refusal::Size));
    assert_eq!(rt; check_image(&bytes, 4, 256), fault(0, 0, 0, Cause::Length));
}

// The blank image with one byte set has this fault.
fn wrong_at(rt: &impl Abort, byte: usize, value: u8, record: usize, cause: Cause) {
    let mut bytes = blank();
    assert!(rt; byte < 48);
    bytes[byte] = value;
    assert_eq!(rt; check_image(&bytes, 4, 4), fault(0, record, byte, cause));
}

#[test]
fn each_cause_in_each_record(rt: HostRuntime) {
    wrong_at(&rt, 0, 0x9D, 0, Cause::Mark);
    wrong_at(&rt, 13, 0xC5, 1, Cause::Mark);
    wrong_at(&rt, 37, 0, 3, Cause::Mark);
    wrong_at(&rt, 2, 1, 0, Cause::Number);
    wrong_at(&rt, 26, 3, 2, Cause::Number);
    wrong_at(&rt, 38, 4, 3, Cause::Number);
    wrong_at(&rt, 3, 2, 0, Cause::Flag);
    wrong_at(&rt, 15, 255, 1, Cause::Flag);
    wrong_at(&rt, 39, 2, 3, Cause::Flag);
}

#[test]
fn first_wrong_byte_counts(rt: HostRuntime) {
    let right = blank();
    let mut bytes = blank();
    bytes[3] = 2;
    bytes[12] = 0;
    assert_eq!(rt; check_image(&bytes, 4, 4), fault(0, 0, 3, Cause::Flag));
    assert_eq!(rt;
        check_images(&right, &bytes, 4, 4, 4),
        fault(1, 0, 3, Cause::Flag)
    );
    assert_eq!(rt;
        check_images(&bytes, &bytes, 4, 4, 4),
        fault(0, 0, 3, Cause::Flag)
    );
    assert_eq!(rt; check_images(&bytes, &right, 4, 0, 4), Err(Refusal::Size));
    assert_eq!(rt; check_images(&right, &right, 4, 4, 4), Ok(()));
}

#[test]
fn calls_reach_the_bytes(rt: HostRuntime) {
    let mut bytes = blank();
    let mut rack = ImageRack::over(&mut bytes, 4);
    assert!(rt; rack.nodes() == 4);
    assert!(rt; rack.put(1, 3, 0x1234) == Ok(()));
    assert!(rt; rack.get(1, 3) == Err(Refusal::NodeOut));
    assert!(rt; rack.raise(1) == Ok(()));
    assert!(rt; rack.get(1, 3) == Ok(0x1234));
    assert!(rt; rack.get(1, 4) == Err(Refusal::NoSuchPlace));
    assert!(rt; rack.meter(1) == 1);
    let held = rack.as_bytes();
    assert!(rt; held.len() == 48);
    assert!(rt; held[15] == 1 && held[22] == 0x34 && held[23] == 0x12);
}

#[test]
fn lent_images(rt: HostRuntime) {
    let mut first = blank();
    let mut second = blank();
    assert_eq!(rt; fill_image(&mut first, 4, 4, 2, &[1, 2, 3, 0xFFFF]), Ok(()));
    assert!(rt; first[27] == 1 && first[28] == 1 && first[34] == 0xFF && first[35] == 0xFF);
    assert_eq!(rt;
        fill_image(&mut first, 4, 4, 4, &[1, 2, 3, 4]),
        Err(Refusal::NoSuchPlace)
    );
    assert_eq!(rt;
        fill_image(&mut first, 4, 4, 0, &[1]),
        Err(Refusal::NoSuchPlace)
    );
    assert_eq!(rt;
        move_between_images(&mut first, &mut second, 4, 4, 4, 0, 0),
        Err(Refusal::NodeOut)
    );
    assert_eq!(rt;
        move_between_images(&mut first, &mut second, 4, 4, 4, 2, 0),
        Ok(())
    );
    assert!(rt; first[27] == 0 && second[3] == 1 && second[10] == 0xFF);
}

#[test]
fn two_rooms_as_one(rt: HostRuntime) {
    let mut first = blank();
    let mut second = blank();
    assert_eq!(rt;
        fill_rooms(&mut first, &mut second, 4, 4, 4, 5, &[9, 8, 7, 6]),
        Ok(())
    );
    assert!(rt; first == blank());
    assert!(rt; second[15] == 1 && second[16] == 9 && second[22] == 6);
    assert_eq!(rt;
        fill_rooms(&mut first, &mut second, 4, 4, 4, 8, &[9, 8, 7, 6]),
        Err(Refusal::NoSuchPlace)
    );
}
