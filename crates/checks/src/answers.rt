//! What a call that is refused answers.
ghost use Rattle.std.specs.Prelude.{◌≡◌, Err};
ghost use Rattle.faults.specs.Faults.{fault};

use faults::{Fault, Refusal};

/// The answer of a call that a rule refuses, with its figure.
pub(crate) fn refused<T>(refusal: Refusal, figure: u64) -> Result<T, Fault>
    ensures { result ≡ Err (fault refusal figure) }
{
    Err(Fault::new(refusal, figure))
}
