// Whether bytes are an image: the counts are looked at first, then the length, then byte by byte.
ghost use Rattle.std.specs.Prelude.{◌≡◌, true, Ok, MatchResult};
ghost use Rattle.rack.specs.Model.{Model, fitting};
ghost use Rattle.rack_image.specs.Image.{wrong, found_cause, Formed, Malformed, ImageRefused, ImagesRefused, rooms_fit, Words16, image};

use crate::image::record_length;
use rack::fit;
use refusal::{Cause, Fault, Refusal};

// The cause for which a byte is wrong at an offset of the record of this number.
fn wrong_byte(number: usize, offset: usize, byte: u8) -> Option<Cause>
    ensures { found_cause result ≡ wrong number offset byte }
{
    match offset {
        0 if byte != 0xC5 => Some(Cause::Mark),
        1 if byte != 0x9D => Some(Cause::Mark),
        2 if byte as usize != number => Some(Cause::Number),
        3 if byte > 1 => Some(Cause::Flag),
        _ => None,
    }
}

// Whether the image of a room is formed, or where it is malformed.
fn examine(bytes: &[u8], nodes: usize, places: usize, room: u8) -> Result<(), Fault>
    requires { fitting nodes places ≡ true }
    ensures { MatchResult result (λ _. Formed nodes places bytes.now) (λ f. (f.room ≡ room) × Malformed nodes places bytes.now f) }
{
    let long = record_length(places);
    if bytes.len() != nodes * long {
        return Err(Fault {
            room,
            record: 0,
            byte: 0,
            cause: Cause::Length,
        });
    }
    for (at, byte) in bytes.iter().enumerate() {
        let record = at / long;
        if let Some(cause) = wrong_byte(record, at % long, *byte) {
            return Err(Fault {
                room,
                record,
                byte: at,
                cause,
            });
        }
    }
    Ok(())
}

// Whether the bytes are an image of so many nodes with so many places.
pub fn check_image(bytes: &[u8], nodes: usize, places: usize) -> Result<(), Refusal>
    ensures answer { MatchResult result (λ _. (fitting nodes places ≡ true) × Formed nodes places bytes.now) (ImageRefused nodes places bytes.now) }
    ensures accepts { (m : Model) → m.nodes ≡ nodes → m.places ≡ places → fitting nodes places ≡ true → Words16 m → bytes.now ≡ image m → result ≡ Ok tt }
{
    if !fit(nodes, places) {
        return Err(Refusal::Size);
    }
    examine(bytes, nodes, places, 0).map_err(Refusal::Image)
}

// Whether the bytes are the images of the two rooms of a pair; the first room is looked at first.
// The rooms are two pairs of bytes and a count: one struct for both would be made for this call and taken apart in it.
pub fn check_images(
    first: &[u8],
    second: &[u8],
    first_nodes: usize,
    second_nodes: usize,
    places: usize,
) -> Result<(), Refusal>
    ensures { MatchResult result (λ _. (rooms_fit first_nodes second_nodes places ≡ true) × Formed first_nodes places first.now × Formed second_nodes places second.now) (ImagesRefused first_nodes second_nodes places first.now second.now) }
{
    if !fit(first_nodes, places) || !fit(second_nodes, places) || first_nodes + second_nodes > 16 {
        return Err(Refusal::Size);
    }
    examine(first, first_nodes, places, 0).map_err(Refusal::Image)?;
    examine(second, second_nodes, places, 1).map_err(Refusal::Image)
}
