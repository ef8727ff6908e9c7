//! Refusals of what is read.
ghost use Rattle.std.specs.Prelude.{◌≡◌};
ghost use Rattle.read_faults.specs.declared.fail.ReadFail.TheVariants.{Refused};

use crate::fail::ReadFail;

/// The refusal with this kind at this place.
pub fn refused(kind: u8, place: usize) -> ReadFail
    ensures { result ≡ Refused kind place }
{
    ReadFail::Refused {
        kind,
        offset: place as u64,
    }
}
