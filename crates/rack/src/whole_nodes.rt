// The words of a whole node of any rack: written from a list, copied to one, moved to another rack.
ghost use Rattle.std.specs.Prelude.{◌≡◌, length};
ghost use Rattle.rack.specs.Model.{done};
ghost use Rattle.rack.specs.Filled.{sized, drawn, movable, copied, after_fill, after_copy, after_move_from, after_move_to};

use crate::the_rack::Rack;
use refusal::Refusal;

// Writes the words of a node and raises it.
pub fn fill_node<R: Rack>(rack: &mut R, node: usize, words: &[u16]) -> Result<(), Refusal>
    ensures answer { result ≡ done (sized (R.model rack.old) node (length words.now)) }
    ensures after { R.model rack.new ≡ after_fill (R.model rack.old) node words.now }
    ensures stays { R.kept rack.old rack.new }
{
    if node >= rack.nodes() || words.len() != rack.places() {
        return Err(Refusal::NoSuchPlace);
    }
    for (place, word) in words.iter().enumerate() {
        rack.put(node, place, *word)?;
    }
    rack.raise(node)
}

// Copies the words of a standing node, each drawn once.
pub fn copy_node<R: Rack>(rack: &mut R, node: usize, out: &mut [u16]) -> Result<(), Refusal>
    ensures answer { result ≡ drawn (sized (R.model rack.old) node (length out.old)) ((R.model rack.old).flags node) }
    ensures after { R.model rack.new ≡ after_copy (R.model rack.old) node out.old }
    ensures words { out.new ≡ copied (R.model rack.old) node out.old }
    ensures stays { R.kept rack.old rack.new }
{
    if node >= rack.nodes() || out.len() != rack.places() {
        return Err(Refusal::NoSuchPlace);
    }
    if !rack.stands(node) {
        return Err(Refusal::NodeOut);
    }
    for (place, word) in out.iter_mut().enumerate() {
        *word = rack.get(node, place)?;
    }
    Ok(())
}

// Moves the words of a standing node to a node of another rack: that node then stands, and the first is out.
pub fn move_node<A: Rack, B: Rack>(
    from: &mut A,
    node: usize,
    to: &mut B,
    target: usize,
) -> Result<(), Refusal>
    ensures answer { result ≡ drawn (movable (A.model from.old) node (B.model to.old) target) ((A.model from.old).flags node) }
    ensures source { A.model from.new ≡ after_move_from (A.model from.old) node (B.model to.old) target }
    ensures sink { B.model to.new ≡ after_move_to (A.model from.old) node (B.model to.old) target }
    ensures stays { A.kept from.old from.new × B.kept to.old to.new }
{
    let places = from.places();
    if node >= from.nodes() || target >= to.nodes() || places != to.places() {
        return Err(Refusal::NoSuchPlace);
    }
    if !from.stands(node) {
        return Err(Refusal::NodeOut);
    }
    for place in 0..places {
        to.put(target, place, from.get(node, place)?)?;
    }
    to.raise(target)?;
    from.take_out(node)
}
