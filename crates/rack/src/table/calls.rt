// A new table, and what it does as a rack.
ghost use Rattle.std.specs.Prelude.{◌≡◌, ◌+◌, ◌*◌, ◌<◌, true, false, MatchResult, vec_len, refl};
ghost use Rattle.std.proofs.Common.{◌∙◌};
ghost use Rattle.refusal.specs.declared.reason.Refusal.TheVariants.{NoSuchPlace};
ghost use Rattle.rack.specs.Model.{fitting, fresh, within};
ghost use Rattle.rack.specs.Table.{table_model, not_made};

use crate::counts::fit;
use crate::node::Node;
use crate::table::TableRack;
use crate::table_error::TableError;
use crate::the_rack::Rack;
use refusal::Refusal;
use std::alloc::Global;

impl TableRack {
    // A table of so many nodes with so many places: each node is out, each word and each meter is 0.
    pub fn new(heap: Global, nodes: usize, places: usize) -> Result<TableRack, TableError>
        ensures { MatchResult result (λ t. (fitting nodes places ≡ true) × (table_model t ≡ fresh nodes places)) (λ e. e ≡ not_made nodes places) }
    {
        if !fit(nodes, places) {
            return Err(Refusal::Size.into());
        }
        Ok(TableRack {
            nodes: vec![in heap; Node::default(); nodes]?,
            words: vec![in heap; 0; nodes * places]?,
            places,
        })
    }

    // Where the word at a place of a node lies, if there is such a place.
    fn word_at(&self, node: usize, place: usize) -> Result<usize, Refusal>
        ensures { MatchResult result (λ at. (node < vec_len self.now.nodes) × (place < self.now.places) × (at ≡ node * self.now.places + place) × (at < vec_len self.now.words)) (λ e. (within (table_model self.now) node place ≡ false) × (e ≡ NoSuchPlace)) }
    {
        if node >= self.nodes.len() || place >= self.places {
            return Err(Refusal::NoSuchPlace);
        }
        Ok(node * self.places + place)
    }
}

impl Rack for TableRack {
    ghost model = { table_model };

    ghost kept = { λ s t. ((table_model t).nodes ≡ (table_model s).nodes) × ((table_model t).places ≡ (table_model s).places) };

    ghost keeping = { record { same = λ x. (refl, refl); joined = λ x y z p q. (q.0 ∙ p.0, q.1 ∙ p.1); same_nodes = λ x y p. p.0; same_places = λ x y p. p.1 } };

    fn nodes(&self) -> usize {
        self.nodes.len()
    }

    fn places(&self) -> usize {
        self.places
    }

    fn stands(&self, node: usize) -> bool {
        self.nodes.get(node).is_some_and(|n| n.standing)
    }

    fn meter(&self, node: usize) -> u64 {
        self.nodes.get(node).map_or(0, |n| n.meter)
    }

    fn get(&mut self, node: usize, place: usize) -> Result<u16, Refusal> {
        let at = self.word_at(node, place)?;
        let held = &mut self.nodes[node];
        if !held.standing {
            return Err(Refusal::NodeOut);
        }
        held.draw();
        Ok(self.words[at])
    }

    fn put(&mut self, node: usize, place: usize, word: u16) -> Result<(), Refusal> {
        let at = self.word_at(node, place)?;
        self.words[at] = word;
        Ok(())
    }

    fn set_standing(&mut self, node: usize, standing: bool) -> Result<(), Refusal> {
        let held = self.nodes.get_mut(node).ok_or(Refusal::NoSuchPlace)?;
        held.standing = standing;
        Ok(())
    }
}
