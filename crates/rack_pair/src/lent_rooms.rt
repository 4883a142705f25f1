// A whole node of two lent racks as one, and of the lent images of two rooms: what the bytes hold afterwards is the encoding of the racks.
ghost use Rattle.std.specs.Prelude.{◌≡◌, length, MatchResult};
ghost use Rattle.rack.specs.Model.{done};
ghost use Rattle.rack.specs.Filled.{sized, after_fill};
ghost use Rattle.rack_pair.specs.Pair.{paired};
ghost use Rattle.rack_pair.specs.LentRooms.{RoomsFilled, RoomsRefused};

use crate::lent_pair::LentPair;
use rack::{Rack, fill_node};
use rack_image::{ImageRack, check_images};
use refusal::Refusal;

// Fills a node of two lent racks as one.
pub fn fill_pair<A: Rack, B: Rack>(
    first: &mut A,
    second: &mut B,
    node: usize,
    words: &[u16],
) -> Result<(), Refusal>
    ensures answer { result ≡ done (sized (paired (A.model first.old) (B.model second.old)) node (length words.now)) }
    ensures after { paired (A.model first.new) (B.model second.new) ≡ after_fill (paired (A.model first.old) (B.model second.old)) node words.now }
    ensures stays { A.kept first.old first.new × B.kept second.old second.new }
{
    let mut pair = LentPair { first, second };
    fill_node(&mut pair, node, words)
}

// Fills a node of two lent rooms as one rack; a refusal leaves the bytes of both as they were.
pub fn fill_rooms(
    first: &mut [u8],
    second: &mut [u8],
    first_nodes: usize,
    second_nodes: usize,
    places: usize,
    node: usize,
    words: &[u16],
) -> Result<(), Refusal>
    ensures { MatchResult result (λ _. RoomsFilled first_nodes second_nodes places first.old second.old node words.now first.new second.new) (λ e. (first.new ≡ first.old) × (second.new ≡ second.old) × RoomsRefused first_nodes second_nodes places first.old second.old node (length words.now) e) }
{
    check_images(first, second, first_nodes, second_nodes, places)?;
    let mut front = ImageRack::over(first, places);
    let mut back = ImageRack::over(second, places);
    fill_pair(&mut front, &mut back, node, words)
}
