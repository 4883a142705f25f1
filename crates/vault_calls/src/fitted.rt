// A lent rack that has a shape's counts.
ghost use Rattle.std.specs.Prelude.{◌≡◌, false};
ghost use Rattle.vault_calls.specs.Calls.{wrong_size};

use rack::Rack;
use shape::Shape;

// The work space is no part of it, since the code is lent it between two steps.
#[derive(Drop)]
pub struct Fitted<'a, R: Rack> {
    pub shape: Shape,
    pub rack: &'a mut R,
    ghost sized: { wrong_size shape.q shape.t (R.model rack.now) ≡ false },
}
