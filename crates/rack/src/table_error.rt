// Why no table was made.
ghost use Rattle.std.specs.Prelude.{◌≡◌};
ghost use Rattle.rack.specs.declared.table_error.TableError.TheVariants.{Refused, NoMemory};

use refusal::Refusal;
use std::alloc::AllocError;

#[derive(Clone, Copy, PartialEq, Eq, Debug)]
pub enum TableError {
    // The call was refused.
    Refused(Refusal),
    // There was no memory; this has no number, since the call was not at fault.
    NoMemory,
}

impl From<Refusal> for TableError {
    ghost from_gives = { λ why r. r ≡ Refused why };

    // The refusal, as the reason why there is no table.
    fn from(why: Refusal) -> TableError {
        TableError::Refused(why)
    }
}

impl From<AllocError> for TableError {
    ghost from_gives = { λ _ r. r ≡ NoMemory };

    // Want of memory, as the reason why there is no table.
    fn from(_e: AllocError) -> TableError {
        TableError::NoMemory
    }
}
