//! Binary fields: polynomials over bits, modulo an irreducible polynomial.
ghost use Rattle.std.specs.Prelude.{◌≡◌, ◌^◌, ◌<◌, ◌≤◌, true, false, MatchResult};
ghost use Rattle.faults.specs.Faults.{fault};
ghost use Rattle.faults.specs.declared.refusal.Refusal.TheVariants.{Field as NoField};
ghost use Rattle.fields.specs.Kinds.{has_binary_field, makes_binary_field, house_modulus, binary_tables};
ghost use Rattle.fields.specs.Polynomials.{product, remainder};
ghost use Rattle.fields.specs.BinarySteps.{admitted_laws};

use crate::elements::{combined, element};
use crate::field::Field;
use faults::{Fault, Refusal, refuse_unless};

/// The moduli for m from 2 to 6: bit i is the coefficient of x^i.
const MODULI: [u32; 5] = [7, 11, 19, 37, 67];

/// The field of the polynomials below x^m over bits, modulo an irreducible polynomial of degree m, for m from 2 to 6.
#[derive(Clone, Copy, Debug, PartialEq, Eq)]
pub struct Binary {
    m: u32,
    modulus: u32,
    ghost admitted: { makes_binary_field m modulus ≡ true },
}

impl Binary {
    /// The binary field of order 2^m. An m outside 2 to 6 is refused with 1 and m.
    #[tactic(auto, using(crate::specs::BinarySteps::house_modulus_serves))]
    pub fn new(m: u32) -> Result<Binary, Fault>
        ensures { MatchResult result (λ f. (has_binary_field m ≡ true) × (f.m ≡ m) × (f.modulus ≡ house_modulus m)) (λ e. (has_binary_field m ≡ false) × (e ≡ fault NoField m)) }
    {
        refuse_unless((2..=6).contains(&m), Refusal::Field, m as u64)?;
        Ok(Binary {
            m,
            modulus: MODULI[m as usize - 2],
        })
    }

    /// The product of a polynomial below x^m and the terms below x^m of another.
    #[tactic(auto, using(crate::specs::BinarySteps::product_turn), unfolding(crate::specs::Polynomials::product))]
    fn carryless_product(&self, a: u32, b: u32) -> u32
        requires { a < 2 ^ self.now.m }
        ensures { result ≡ product self.now.m a b }
    {
        // A loop, tried as a fold: that left a goal open which the loop's one line of invariant closes.
        let mut sum = 0;
        for i in 0..self.m {
            sum ^= (a << i) * (b >> i & 1);
        }
        sum
    }

    /// What is left of a polynomial below x^(2m) on division by the modulus.
    #[tactic(auto, using(crate::specs::BinarySteps::remainder_turn), unfolding(crate::specs::Polynomials::remainder))]
    fn reduced(&self, a: u32) -> u32
        ensures { result ≡ remainder self.now.m self.now.modulus self.now.m a }
    {
        // A loop for the same reason.
        let mut rest = a;
        for i in (0..self.m).rev() {
            rest ^= (self.modulus << i) * (rest >> (self.m + i) & 1);
        }
        rest
    }
}

impl Field for Binary {
    ghost tables = { λ f. binary_tables f.m f.modulus };

    ghost lawful = { λ f. admitted_laws f.m f.modulus f.admitted };

    fn order(&self) -> u32 {
        1 << self.m
    }

    fn sum(&self, a: u32, b: u32) -> Result<u32, Fault> {
        combined(self.order(), a, b, |x, y| x ^ y)
    }

    #[tactic(auto, using(crate::proofs::Answering::binary_negative))]
    fn negative(&self, a: u32) -> Result<u32, Fault> {
        element(self.order(), a)
    }

    fn product(&self, a: u32, b: u32) -> Result<u32, Fault> {
        combined(
            self.order(),
            a,
            b,
            |x, y| self.reduced(self.carryless_product(x, y)),
        )
    }
}
