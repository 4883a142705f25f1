// A vault: a shape, a field and a rack. It keeps no copy of a word.
ghost use Rattle.std.specs.Prelude.{◌≡◌, true, false, MatchResult};
ghost use Rattle.refusal.specs.declared.reason.Refusal.TheVariants.{Size};
ghost use Rattle.vault_calls.specs.Calls.{wrong_size};

use field::Field;
use rack::Rack;
use refusal::Refusal;
use shape::Shape;
use vault_calls::fits;

#[derive(Drop)]
pub struct Vault<F, R> {
    pub(crate) shape: Shape,
    field: F,
    pub(crate) rack: R,
}

// A rack on which no vault was opened, handed back.
#[derive(Drop)]
pub struct NotOpened<R> {
    pub why: Refusal,
    pub rack: R,
}

impl<F: Field + Drop, R: Rack> Vault<F, R> {
    // Opens a vault on a rack of the shape's counts; it changes no word.
    pub fn open(shape: Shape, field: F, rack: R) -> Result<Vault<F, R>, NotOpened<R>>
        ensures { MatchResult result (λ v. (wrong_size shape.q shape.t (R.model rack) ≡ false) × (v.shape ≡ shape) × (v.rack ≡ rack)) (λ e. (wrong_size shape.q shape.t (R.model rack) ≡ true) × (e.why ≡ Size) × (e.rack ≡ rack)) }
    {
        if let Err(why) = fits(shape, &rack) {
            return Err(NotOpened { why, rack });
        }
        Ok(Vault { shape, field, rack })
    }

    // Gives the rack back.
    pub fn close(self) -> R
        ensures { result ≡ self.rack }
    {
        let Vault {
            shape: _,
            field: _,
            rack,
        } = self;
        rack
    }

    // The shape.
    pub fn shape(&self) -> Shape
        ensures { result ≡ self.now.shape }
    {
        self.shape
    }

    // The rack, for a look.
    pub fn rack(&self) -> &R
        ensures { result.now ≡ self.now.rack }
    {
        &self.rack
    }
}
