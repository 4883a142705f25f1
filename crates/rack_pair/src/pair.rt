// Two racks as one: the first room's nodes come first, and there are no more than 16 in all.
ghost use Rattle.std.specs.Prelude.{◌≡◌, ◌+◌, ◌<◌, ◌≤◌, min, true, false, MatchOption, MatchResult};
ghost use Rattle.std.proofs.Common.{ap₂};
ghost use Rattle.refusal.specs.declared.reason.Refusal.TheVariants.{Size, NoSuchPlace};
ghost use Rattle.rack.specs.Model.{within};
ghost use Rattle.rack_pair.specs.Pair.{paired, matching, Placed};

use crate::seat::Seat;
use rack::Rack;
use refusal::Refusal;

#[derive(Drop)]
pub struct PairRack<A, B> {
    pub first: A,
    pub second: B,
}

// Two racks that were not joined, given back.
#[derive(Drop)]
pub struct NotJoined<A, B> {
    pub why: Refusal,
    pub first: A,
    pub second: B,
}

// The two racks as one, unless their places differ or they have more than 16 nodes.
pub fn join<A: Rack, B: Rack>(first: A, second: B) -> Result<PairRack<A, B>, NotJoined<A, B>>
    ensures { MatchResult result (λ t. (matching (A.model first) (B.model second) ≡ true) × (t.first ≡ first) × (t.second ≡ second)) (λ e. (matching (A.model first) (B.model second) ≡ false) × (e.why ≡ Size) × (e.first ≡ first) × (e.second ≡ second)) }
{
    let nodes = first.nodes().saturating_add(second.nodes());
    if nodes > 16 || first.places() != second.places() {
        return Err(NotJoined {
            why: Refusal::Size,
            first,
            second,
        });
    }
    Ok(PairRack { first, second })
}

impl<A: Rack, B: Rack> PairRack<A, B> {
    // The room that a node is in, and its number there. What is asked of it is asked by a match, since the rooms are of two types.
    fn seat_of(&self, node: usize) -> Option<Seat>
        ensures { MatchOption result ((paired (A.model self.now.first) (B.model self.now.second)).nodes ≤ node) (Placed (A.model self.now.first) (B.model self.now.second) node) }
    {
        let n = self.first.nodes();
        if node >= self.nodes() {
            None
        } else if node < n {
            Some(Seat::First(node))
        } else {
            Some(Seat::Second(node - n))
        }
    }

    // The same, of a node that has to be there with such a place.
    fn seat_with(&self, node: usize, place: usize) -> Result<Seat, Refusal>
        ensures { MatchResult result (λ s. (place < (paired (A.model self.now.first) (B.model self.now.second)).places) × Placed (A.model self.now.first) (B.model self.now.second) node s) (λ e. (within (paired (A.model self.now.first) (B.model self.now.second)) node place ≡ false) × (e ≡ NoSuchPlace)) }
    {
        if place >= self.places() {
            return Err(Refusal::NoSuchPlace);
        }
        self.seat_of(node).ok_or(Refusal::NoSuchPlace)
    }
}

impl<A: Rack, B: Rack> Rack for PairRack<A, B> {
    ghost model = { λ s. paired (A.model s.first) (B.model s.second) };

    ghost kept = { λ s t. A.kept s.first t.first × B.kept s.second t.second };

    ghost keeping = { record { same = λ x. (A.keeping.same x.first, B.keeping.same x.second); joined = λ x y z p q. (A.keeping.joined _ _ _ p.0 q.0, B.keeping.joined _ _ _ p.1 q.1); same_nodes = λ x y p. ap₂ (λ m n. min 16 (m + n)) (A.keeping.same_nodes _ _ p.0) (B.keeping.same_nodes _ _ p.1); same_places = λ x y p. ap₂ min (A.keeping.same_places _ _ p.0) (B.keeping.same_places _ _ p.1) } };

    fn nodes(&self) -> usize {
        let n = self.first.nodes();
        n.saturating_add(self.second.nodes()).min(16)
    }

    fn places(&self) -> usize {
        self.first.places().min(self.second.places())
    }

    fn stands(&self, node: usize) -> bool {
        match self.seat_of(node) {
            Some(Seat::First(i)) => self.first.stands(i),
            Some(Seat::Second(i)) => self.second.stands(i),
            None => false,
        }
    }

    fn meter(&self, node: usize) -> u64 {
        match self.seat_of(node) {
            Some(Seat::First(i)) => self.first.meter(i),
            Some(Seat::Second(i)) => self.second.meter(i),
            None => 0,
        }
    }

    fn get(&mut self, node: usize, place: usize) -> Result<u16, Refusal> {
        match self.seat_with(node, place)? {
            Seat::First(i) => self.first.get(i, place),
            Seat::Second(i) => self.second.get(i, place),
        }
    }

    fn put(&mut self, node: usize, place: usize, word: u16) -> Result<(), Refusal> {
        match self.seat_with(node, place)? {
            Seat::First(i) => self.first.put(i, place, word),
            Seat::Second(i) => self.second.put(i, place, word),
        }
    }

    fn set_standing(&mut self, node: usize, standing: bool) -> Result<(), Refusal> {
        match self.seat_of(node).ok_or(Refusal::NoSuchPlace)? {
            Seat::First(i) => self.first.set_standing(i, standing),
            Seat::Second(i) => self.second.set_standing(i, standing),
        }
    }
}
