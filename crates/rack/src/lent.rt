// A lent rack is a rack: who lent it knows it again afterwards.
ghost use Rattle.std.specs.Prelude.{◌≡◌, refl};
ghost use Rattle.std.proofs.Common.{◌∙◌};

use crate::the_rack::Rack;
use refusal::Refusal;

impl<'a, R: Rack> Rack for &'a mut R {
    ghost model = { λ s. R.model s.now };

    ghost kept = { λ s t. (t.ghost_name ≡ s.ghost_name) × R.kept s.now t.now };

    ghost keeping = { record { same = λ x. (refl, R.keeping.same x.now); joined = λ x y z p q. (q.0 ∙ p.0, R.keeping.joined _ _ _ p.1 q.1); same_nodes = λ x y p. R.keeping.same_nodes _ _ p.1; same_places = λ x y p. R.keeping.same_places _ _ p.1 } };

    fn nodes(&self) -> usize {
        (**self).nodes()
    }

    fn places(&self) -> usize {
        (**self).places()
    }

    fn stands(&self, node: usize) -> bool {
        (**self).stands(node)
    }

    fn meter(&self, node: usize) -> u64 {
        (**self).meter(node)
    }

    fn get(&mut self, node: usize, place: usize) -> Result<u16, Refusal> {
        (**self).get(node, place)
    }

    fn put(&mut self, node: usize, place: usize, word: u16) -> Result<(), Refusal> {
        (**self).put(node, place, word)
    }

    fn set_standing(&mut self, node: usize, standing: bool) -> Result<(), Refusal> {
        (**self).set_standing(node, standing)
    }
}
