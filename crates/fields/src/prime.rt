//! Prime fields: sums and products modulo a prime.
ghost use Rattle.std.specs.Prelude.{◌≡◌, ◌*◌, ◌%◌, ◌<◌, true, false, MatchResult};
ghost use Rattle.faults.specs.Faults.{fault};
ghost use Rattle.faults.specs.declared.refusal.Refusal.TheVariants.{Field as NoField};
ghost use Rattle.fields.specs.Kinds.{prime, makes_prime_field, prime_tables};
ghost use Rattle.fields.specs.PrimeLaws.{prime_laws};

use crate::elements::{combined, element};
use crate::field::Field;
use faults::{Fault, Refusal, refuse_unless};

/// The field of the numbers below a prime p, for p from 2 to 61.
#[derive(Clone, Copy, Debug, PartialEq, Eq)]
pub struct Prime {
    p: u32,
    ghost admitted: { makes_prime_field p ≡ true },
}

impl Prime {
    /// The prime field of order p. What is no prime from 2 to 61 is refused with 1 and p.
    pub fn new(p: u32) -> Result<Prime, Fault>
        ensures { MatchResult result (λ f. (makes_prime_field p ≡ true) × (f.p ≡ p)) (λ e. (makes_prime_field p ≡ false) × (e ≡ fault NoField p)) }
    {
        refuse_unless(p <= 61 && is_prime(p), Refusal::Field, p as u64)?;
        Ok(Prime { p })
    }
}

/// Whether p is a prime, by trial division.
#[tactic(auto, unfolding(crate::specs::Kinds::prime))]
fn is_prime(p: u32) -> bool
    ensures { result ≡ prime p }
{
    p >= 2 && (2..p).all(|d| p % d != 0)
}

/// The remainder by p of a number below 2p.
fn reduced_once(s: u32, p: u32) -> u32
    requires { s < 2 * p }
    ensures { result ≡ s % p }
{
    if s < p { s } else { s - p }
}

impl Field for Prime {
    ghost tables = { λ f. prime_tables f.p };

    ghost lawful = { λ f. prime_laws f.p f.admitted };

    fn order(&self) -> u32 {
        self.p
    }

    fn sum(&self, a: u32, b: u32) -> Result<u32, Fault> {
        combined(self.p, a, b, |x, y| reduced_once(x + y, self.p))
    }

    #[tactic(auto, using(crate::proofs::Answering::prime_negative, crate::proofs::Answering::prime_negative_zero))]
    fn negative(&self, a: u32) -> Result<u32, Fault> {
        let a = element(self.p, a)?;
        Ok(if a == 0 { 0 } else { self.p - a })
    }

    fn product(&self, a: u32, b: u32) -> Result<u32, Fault> {
        combined(self.p, a, b, |x, y| x * y % self.p)
    }
}
