// Work on whole nodes of lent images: what the bytes hold afterwards is the encoding of the racks.
ghost use Rattle.std.specs.Prelude.{◌≡◌, length, MatchResult};
ghost use Rattle.rack_image.specs.Lent.{NodeFilled, FillRefused, NodeMoved, MoveRefused};

use crate::checks::{check_image, check_images};
use crate::image::ImageRack;
use rack::{fill_node, move_node};
use refusal::Refusal;

// Fills a node of a lent image from a list of words; a refusal leaves the bytes as they were.
pub fn fill_image(
    bytes: &mut [u8],
    nodes: usize,
    places: usize,
    node: usize,
    words: &[u16],
) -> Result<(), Refusal>
    ensures { MatchResult result (λ _. NodeFilled nodes places bytes.old node words.now bytes.new) (λ e. (bytes.new ≡ bytes.old) × FillRefused nodes places bytes.old node (length words.now) e) }
{
    check_image(bytes, nodes, places)?;
    let mut rack = ImageRack::over(bytes, places);
    fill_node(&mut rack, node, words)
}

// Moves a node of the first room to a node of the second; a refusal leaves the bytes of both as they were.
pub fn move_between_images(
    first: &mut [u8],
    second: &mut [u8],
    first_nodes: usize,
    second_nodes: usize,
    places: usize,
    node: usize,
    target: usize,
) -> Result<(), Refusal>
    ensures { MatchResult result (λ _. NodeMoved first_nodes second_nodes places first.old second.old node target first.new second.new) (λ e. (first.new ≡ first.old) × (second.new ≡ second.old) × MoveRefused first_nodes second_nodes places first.old second.old node target e) }
{
    check_images(first, second, first_nodes, second_nodes, places)?;
    let mut source = ImageRack::over(first, places);
    let mut sink = ImageRack::over(second, places);
    move_node(&mut source, node, &mut sink, target)
}
