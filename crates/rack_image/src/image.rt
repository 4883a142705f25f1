// A rack over lent bytes: a record for each node, in order.
ghost use Rattle.std.specs.Prelude.{◌≡◌, ℕ, ◌+◌, ◌*◌, ◌/◌, ◌<◌, ◌≤◌, min, false, length, MatchResult, refl};
ghost use Rattle.std.proofs.Common.{◌∙◌};
ghost use Rattle.refusal.specs.declared.reason.Refusal.TheVariants.{NoSuchPlace};
ghost use Rattle.rack.specs.Model.{Model, within};
ghost use Rattle.rack_image.specs.Image.{image, image_model, opened, record_count, record_length, Formed, SameHeld};

use rack::Rack;
use refusal::Refusal;

#[derive(Drop)]
pub struct ImageRack<'a> {
    bytes: &'a mut [u8],
    places: usize,
    // In fixed memory: a meter for each node that there can be.
    meters: [u64; 16],
}

// How many bytes a record of so many places has, or as many as can be counted.
pub(crate) fn record_length(places: usize) -> usize
    ensures { result ≡ min usize.MAX (record_length places) }
{
    places.saturating_mul(2).saturating_add(4)
}

impl<'a> ImageRack<'a> {
    // The rack over any bytes, with as many nodes as there are whole records, but no more than 16. Its meters are 0.
    pub fn over(bytes: &'a mut [u8], places: usize) -> ImageRack<'a>
        ensures named { result.bytes.ghost_name ≡ bytes.entry.ghost_name }
        ensures bytes { result.bytes.now ≡ bytes.old }
        ensures model { image_model result ≡ opened places bytes.old }
        ensures encodes { (n : ℕ) → n ≤ 16 → Formed n places bytes.old → bytes.old ≡ image (image_model result) }
        ensures decodes { (m : Model) → m.nodes ≤ 16 → m.places ≡ places → bytes.old ≡ image m → SameHeld m (image_model result) }
        ensures determines { (a b : Model) → a.nodes ≤ 16 → b.nodes ≡ a.nodes → b.places ≡ a.places → bytes.old ≡ image a → bytes.old ≡ image b → SameHeld a b }
    {
        ImageRack {
            bytes,
            places,
            meters: [0; 16],
        }
    }

    // The bytes as they are now. If they are an image, they are that of the rack's flags and words.
    pub fn as_bytes(&self) -> &[u8]
        ensures value { result.now ≡ self.now.bytes.now }
        ensures encodes { (n : ℕ) → n ≤ 16 → Formed n self.now.places self.now.bytes.now → result.now ≡ image (image_model self.now) }
    {
        &*self.bytes
    }

    // The byte at which a node's record starts, if there is such a node.
    fn record_of(&self, node: usize) -> Result<usize, Refusal>
        ensures { MatchResult result (λ s. (node < record_count self.now.places self.now.bytes.now) × (s ≡ node * record_length self.now.places) × (s + record_length self.now.places ≤ length self.now.bytes.now)) (λ e. (record_count self.now.places self.now.bytes.now ≤ node) × (e ≡ NoSuchPlace)) }
    {
        if node >= self.nodes() {
            return Err(Refusal::NoSuchPlace);
        }
        Ok(node * record_length(self.places))
    }

    // The same, of a node that has to have such a place.
    fn record_with(&self, node: usize, place: usize) -> Result<usize, Refusal>
        ensures { MatchResult result (λ s. (node < record_count self.now.places self.now.bytes.now) × (place < self.now.places) × (s ≡ node * record_length self.now.places) × (s + record_length self.now.places ≤ length self.now.bytes.now)) (λ e. (within (image_model self.now) node place ≡ false) × (e ≡ NoSuchPlace)) }
    {
        if place >= self.places {
            return Err(Refusal::NoSuchPlace);
        }
        self.record_of(node)
    }
}

impl<'a> Rack for ImageRack<'a> {
    ghost model = { image_model };

    ghost kept = { λ s t. (t.bytes.ghost_name ≡ s.bytes.ghost_name) × (length t.bytes.now ≡ length s.bytes.now) × (t.places ≡ s.places) × ((n : ℕ) → Formed n s.places s.bytes.now → Formed n t.places t.bytes.now) };

    ghost keeping = { record { same = λ x. (refl, refl, refl, λ n f. f); joined = λ x y z p q. (q.0 ∙ p.0, q.1 ∙ p.1, q.2 ∙ p.2, λ n f. q.3 n (p.3 n f)); same_nodes = λ x y p. λ j. min 16 (p.1 j / record_length (p.2 j)); same_places = λ x y p. p.2 } };

    fn nodes(&self) -> usize {
        (self.bytes.len() / record_length(self.places)).min(16)
    }

    fn places(&self) -> usize {
        self.places
    }

    fn stands(&self, node: usize) -> bool {
        self.record_of(node)
            .is_ok_and(|start| self.bytes[start + 3] == 1)
    }

    fn meter(&self, node: usize) -> u64 {
        if node < self.nodes() {
            self.meters[node]
        } else {
            0
        }
    }

    fn get(&mut self, node: usize, place: usize) -> Result<u16, Refusal> {
        let start = self.record_with(node, place)?;
        if self.bytes[start + 3] != 1 {
            return Err(Refusal::NodeOut);
        }
        self.meters[node] = self.meters[node].wrapping_add(1);
        let at = start + 4 + 2 * place;
        Ok(u16::from_le_bytes([self.bytes[at], self.bytes[at + 1]]))
    }

    fn put(&mut self, node: usize, place: usize, word: u16) -> Result<(), Refusal> {
        let start = self.record_with(node, place)?;
        let at = start + 4 + 2 * place;
        let [low, high] = word.to_le_bytes();
        self.bytes[at] = low;
        self.bytes[at + 1] = high;
        Ok(())
    }

    fn set_standing(&mut self, node: usize, standing: bool) -> Result<(), Refusal> {
        let start = self.record_of(node)?;
        self.bytes[start + 3] = u8::from(standing);
        Ok(())
    }
}
