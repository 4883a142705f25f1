// The counts that a table or an image may have.
ghost use Rattle.std.specs.Prelude.{◌≡◌};
ghost use Rattle.rack.specs.Model.{fitting};

// Whether a rack may have so many nodes with so many places.
// Here and wherever a rack is opened, the two counts are two numbers: a struct of them would be taken apart at once.
pub fn fit(nodes: usize, places: usize) -> bool
    ensures { result ≡ fitting nodes places }
{
    (1..=16).contains(&nodes) && (1..=256).contains(&places)
}
