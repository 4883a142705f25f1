// How the nodes and the places of a shape are numbered.
#![tactic(auto, unfolding(crate::specs::Layout::row, crate::specs::Layout::column, crate::specs::Layout::node_at))]

ghost use Rattle.std.specs.Prelude.{◌≡◌, ◌-◌, ◌*◌, ◌^◌, ◌<◌, true, false, IfSome, MatchResult, SomeIff};
ghost use Rattle.refusal.specs.declared.reason.Refusal.TheVariants as reason;
ghost use Rattle.shape.specs.Layout.{is_shape, row, column, digit, node_at, with_digit, companion_node, companion_place, helps};

use crate::dimensions::Shape;
use refusal::Refusal;

impl Shape {
    // The shape of q rows and t columns, each at least 2, with at most 16 nodes.
    pub fn new(q: usize, t: usize) -> Result<Shape, Refusal>
        ensures { MatchResult result (λ s. (is_shape q t ≡ true) × (s.q ≡ q) × (s.t ≡ t)) (λ e. (is_shape q t ≡ false) × (e ≡ reason.Shape)) }
    {
        let nodes = q.saturating_mul(t);
        if q < 2 || t < 2 || nodes > 16 {
            return Err(Refusal::Shape);
        }
        Ok(Shape { q, t })
    }

    // The number of nodes.
    pub fn nodes(self) -> usize
        ensures { result ≡ self.q * self.t }
    {
        self.q * self.t
    }

    // The number of nodes that hold the message.
    pub fn data_nodes(self) -> usize
        ensures { result ≡ self.q * (self.t - 1) }
    {
        self.q * (self.t - 1)
    }

    // The number of places in each node.
    pub fn places(self) -> usize
        ensures { result ≡ self.q ^ self.t }
    {
        self.q.pow(self.t as u32)
    }

    // The number of helper places in each node: those whose digit in one column is given.
    pub fn helper_places(self) -> usize
        ensures { result ≡ self.q ^ (self.t - 1) }
    {
        self.q.pow((self.t - 1) as u32)
    }

    // The number of words in all nodes.
    pub fn words(self) -> usize
        ensures { result ≡ self.q * self.t * self.q ^ self.t }
    {
        self.nodes() * self.places()
    }

    // The number of words of a message.
    pub fn message_words(self) -> usize
        ensures { result ≡ self.q * (self.t - 1) * self.q ^ self.t }
    {
        self.data_nodes() * self.places()
    }

    // The row of a node.
    pub fn row(self, node: usize) -> usize
        ensures { result ≡ row self.q node }
    {
        node % self.q
    }

    // The column of a node.
    pub fn column(self, node: usize) -> usize
        ensures { result ≡ column self.q node }
    {
        node / self.q
    }

    // The digit of a place in a column, in base q.
    pub fn digit(self, place: usize, column: usize) -> usize
        ensures { result ≡ digit self.q place column }
    {
        // By a match, in which the weight has a name of which it is proved that it is not 0.
        match self.weight(column) {
            Some(weight) => place / weight % self.q,
            None => 0,
        }
    }

    // The weight of the digit in a column; none where it is above every place.
    fn weight(self, column: usize) -> Option<usize>
        ensures value { SomeIff result (self.q ^ column < 2 ^ 64) (self.q ^ column) }
        ensures positive { IfSome result (λ weight. 0 < weight) }
    {
        // In the shape's own columns it fits, so that nothing is tested.
        if column < self.t {
            Some(self.q.pow(column as u32))
        } else {
            self.q.checked_pow(column.min(64) as u32)
        }
    }

    // Whether a place helps to repair a node: its digit in the node's column is the node's row.
    pub fn helps(self, node: usize, place: usize) -> bool
        ensures { result ≡ helps self.q node place }
    {
        self.digit(place, self.column(node)) == self.row(node)
    }

    // The node in a row of a column.
    fn node_at(self, row: usize, column: usize) -> usize
        requires in_rows { row < self.q }
        requires in_columns { column < self.t }
        ensures { result ≡ node_at self.q row column }
    {
        column * self.q + row
    }

    // The digit of a place in a column, and the place with another value there. Both by one weight.
    fn with_digit(self, place: usize, column: usize, value: usize) -> (usize, usize)
        requires in_node { place < self.q ^ self.t }
        requires in_columns { column < self.t }
        requires in_base { value < self.q }
        ensures { (result.0 ≡ digit self.q place column) × (result.1 ≡ with_digit self.q place column value) }
    {
        let weight = self.q.pow(column as u32);
        let own = place / weight % self.q;
        (own, place - own * weight + value * weight)
    }

    // The node and the place that a node is coupled with at a place.
    pub fn companion(self, node: usize, place: usize) -> Result<(usize, usize), Refusal>
        ensures { MatchResult result (λ c. (node < self.q * self.t) × (place < self.q ^ self.t) × (c.0 ≡ companion_node self.q node place) × (c.1 ≡ companion_place self.q node place)) (λ e. (e ≡ reason.NoSuchPlace) × (node < self.q * self.t → place < self.q ^ self.t → ⊥)) }
    {
        if node >= self.nodes() || place >= self.places() {
            return Err(Refusal::NoSuchPlace);
        }
        let column = self.column(node);
        let (digit, other) = self.with_digit(place, column, self.row(node));
        Ok((self.node_at(digit, column), other))
    }
}
