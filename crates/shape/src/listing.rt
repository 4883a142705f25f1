// Making and reading lists of nodes that are out.
ghost use Rattle.std.specs.Prelude.{◌≡◌, ℕ, Bool, ◌*◌, ◌<◌, ◌≤◌, true, false, [], ◌∷◌, ◌++◌, length, MatchOption, MatchResult, slice_index};
ghost use Rattle.refusal.specs.declared.reason.Refusal.TheVariants as reason;
ghost use Rattle.shape.specs.Listing.{outages};
ghost use Rattle.shape.specs.Outages.{rising, among, listed};

use crate::dimensions::Shape;
use crate::outages::OutageList;
use refusal::Refusal;

impl OutageList {
    // No node of a shape is out.
    pub fn none(shape: Shape) -> OutageList
        ensures count { result.count ≡ shape.q * shape.t }
        ensures list { outages result ≡ [] }
    {
        OutageList {
            count: shape.nodes(),
            len: 0,
            numbers: [0; 16],
        }
    }

    // The nodes of a shape that a test holds of, in order.
    pub fn filtered<P: Fn(usize) -> bool>(shape: Shape, out: P) -> OutageList
        requires { P.IsAlwaysCallable out }
        ensures count { result.count ≡ shape.q * shape.t }
        ensures list { (test : ℕ → Bool) → ((i : ℕ) (b : Bool) → i < shape.q * shape.t → P.post out i b → b ≡ test i) → outages result ≡ listed test (shape.q * shape.t) }
    {
        let mut list = OutageList::none(shape);
        for node in 0..shape.nodes() {
            if out(node) {
                list.put(node);
            }
        }
        list
    }

    // One number more, with which the list rises.
    fn put(&mut self, node: usize)
        requires { rising self.old.count (outages self.old ++ node ∷ []) ≡ true }
        ensures count { self.new.count ≡ self.old.count }
        ensures list { outages self.new ≡ outages self.old ++ node ∷ [] }
    {
        self.numbers[self.len] = node;
        self.len += 1;
    }

    // Whether the list still rises with one number more.
    fn admits(&self, node: usize) -> bool
        ensures { result ≡ rising self.now.count (outages self.now ++ node ∷ []) }
    {
        node < self.count && self.as_slice().last().is_none_or(|last| *last < node)
    }

    // One number more, refused where the list would not rise or there is no such node.
    pub fn push(&mut self, node: usize) -> Result<(), Refusal>
        ensures count { self.new.count ≡ self.old.count }
        ensures list { MatchResult result (λ _. outages self.new ≡ outages self.old ++ node ∷ []) (λ e. (e ≡ reason.NoSuchPlace) × (outages self.new ≡ outages self.old) × (rising self.old.count (outages self.old ++ node ∷ []) ≡ false)) }
    {
        if !self.admits(node) {
            return Err(Refusal::NoSuchPlace);
        }
        self.put(node);
        Ok(())
    }

    // The list of these numbers, refused where they are unfit.
    pub fn new(shape: Shape, nodes: &[usize]) -> Result<OutageList, Refusal>
        ensures { MatchResult result (λ l. (l.count ≡ shape.q * shape.t) × (outages l ≡ nodes.now)) (λ e. (e ≡ reason.NoSuchPlace) × (rising (shape.q * shape.t) nodes.now ≡ false)) }
    {
        let mut list = OutageList::none(shape);
        for node in nodes {
            list.push(*node)?;
        }
        Ok(list)
    }

    // The number at an index.
    pub fn get(&self, index: usize) -> Option<usize>
        ensures { MatchOption result (length (outages self.now) ≤ index) (λ i. (index < length (outages self.now)) × (i ≡ slice_index (outages self.now) index)) }
    {
        self.as_slice().get(index).copied()
    }

    // Whether a node is out.
    pub fn contains(&self, node: usize) -> bool
        ensures { result ≡ among (outages self.now) node }
    {
        self.as_slice().contains(&node)
    }
}
