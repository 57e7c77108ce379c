//! A refusal together with the figure that tells what was wrong.
ghost use Rattle.std.specs.Prelude.{◌≡◌, Some, None};
ghost use Rattle.faults.specs.Faults.{fault, printed, check, answer};

use crate::refusal::Refusal;
use std::error::Error;
use std::fmt;

/// What a refused call answers: which rule refused, and the figure that tells what was wrong.
///
/// A fault from a lower layer passes through every layer above it as it is.
#[derive(Clone, Copy, PartialEq, Eq, Debug)]
pub struct Fault {
    /// the rule that refused
    pub refusal: Refusal,
    /// what was wrong: a value, a length, a slot, a number or a mark, by the refusal
    pub figure: u64,
}

/// One check of a call: refuses with this figure where the test does not pass.
pub fn refuse_unless(passes: bool, refusal: Refusal, figure: u64) -> Result<(), Fault>
    ensures { result ≡ answer (check passes (fault refusal figure) None) tt }
{
    if passes {
        Ok(())
    } else {
        Err(Fault::new(refusal, figure))
    }
}

impl Fault {
    /// The fault for a refusal with its figure.
    pub fn new(refusal: Refusal, figure: u64) -> Fault
        ensures { result ≡ fault refusal figure }
    {
        Fault { refusal, figure }
    }
}

impl fmt::Display for Fault {
    ghost output = { λ x. Some (printed x) };

    fn fmt<W: fmt::Write>(&self, f: &mut fmt::Formatter<W>) -> fmt::Result {
        let Fault { refusal, figure } = self;
        write!(f, "refusal {}, {refusal}: {figure}", refusal.number())
    }
}

impl Error for Fault {}
