// Words are drawn from the standing nodes into the work space.
ghost use Rattle.std.specs.Prelude.{◌≡◌, ℕ, ◌*◌, ◌^◌, ◌<◌, ◌≤◌, Bool, true, cond, ◌&&◌, length, Ok, nat_lt, slice_index};
ghost use Rattle.shape.specs.Outages.{count};
ghost use Rattle.vault_calls.specs.Steps.{drawn, drawn_below, Gathered, StaysLent, Decides};

use crate::fitted::Fitted;
use rack::Rack;
use refusal::Refusal;

impl<'a, R: Rack> Fitted<'a, R> {
    // Draws the selected places of one standing node, each into its word.
    fn draw_node<P: Fn(usize) -> bool>(
        &mut self,
        node: usize,
        selects: &P,
        words: &mut [u16],
    ) -> Result<(), Refusal>
        requires node { node < self.old.shape.q * self.old.shape.t }
        requires stands { (R.model self.old.rack.now).flags node ≡ true }
        requires selects { (takes : ℕ → Bool) × Decides (P.pre selects.now) (P.post selects.now) (self.old.shape.q ^ self.old.shape.t) takes }
        requires long { length words.old ≡ self.old.shape.q ^ self.old.shape.t }
        ensures accepted { result ≡ Ok tt }
        ensures after { (takes : ℕ → Bool) → Decides (P.pre selects.now) (P.post selects.now) (self.old.shape.q ^ self.old.shape.t) takes → R.model self.new.rack.now ≡ drawn (R.model self.old.rack.now) node (count takes (self.old.shape.q ^ self.old.shape.t)) }
        ensures words { (takes : ℕ → Bool) → Decides (P.pre selects.now) (P.post selects.now) (self.old.shape.q ^ self.old.shape.t) takes → (p : ℕ) → p < self.old.shape.q ^ self.old.shape.t → slice_index words.new p ≡ cond (takes p) ((R.model self.old.rack.now).words node p) (slice_index words.old p) }
        ensures stays { StaysLent R.kept self.old.shape self.old.rack self.new.shape self.new.rack }
    {
        for (place, word) in words.iter_mut().enumerate() {
            if selects(place) {
                *word = self.rack.get(node, place)?;
            }
        }
        Ok(())
    }

    // Draws the selected places of every standing node into the work space.
    pub fn draw<P: Fn(usize) -> bool>(
        &mut self,
        selects: &P,
        space: &mut [u16],
    ) -> Result<(), Refusal>
        requires selects { (takes : ℕ → Bool) × Decides (P.pre selects.now) (P.post selects.now) (self.old.shape.q ^ self.old.shape.t) takes }
        requires room { self.old.shape.q * self.old.shape.t * self.old.shape.q ^ self.old.shape.t ≤ length space.old }
        ensures accepted { result ≡ Ok tt }
        ensures after { (takes : ℕ → Bool) → Decides (P.pre selects.now) (P.post selects.now) (self.old.shape.q ^ self.old.shape.t) takes → R.model self.new.rack.now ≡ drawn_below (R.model self.old.rack.now) (self.old.shape.q * self.old.shape.t) (count takes (self.old.shape.q ^ self.old.shape.t)) }
        ensures space { (takes : ℕ → Bool) → Decides (P.pre selects.now) (P.post selects.now) (self.old.shape.q ^ self.old.shape.t) takes → Gathered (self.old.shape.q ^ self.old.shape.t) (λ j p. (nat_lt j (self.old.shape.q * self.old.shape.t) && (R.model self.old.rack.now).flags j) && takes p) (R.model self.old.rack.now).words space.old space.new }
        ensures stays { StaysLent R.kept self.old.shape self.old.rack self.new.shape self.new.rack }
    {
        let places = self.shape.places();
        for i in 0..self.shape.nodes() {
            if (*self.rack).stands(i) {
                let start = i * places;
                self.draw_node(i, selects, &mut space[start..start + places])?;
            }
        }
        Ok(())
    }
}
