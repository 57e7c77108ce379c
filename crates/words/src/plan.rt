//! A plan: the numbers that settle how cards speak on the wire.
ghost use Rattle.std.specs.Prelude.{◌≡◌, ◌*◌, ◌^◌, ◌<◌, ◌≤◌, true, Some, None, SomeIff, MatchResult};
ghost use Rattle.faults.specs.Faults.{answer};
ghost use Rattle.words.specs.Plans.{plan_refusal, plan_exists};

use faults::{Fault, Refusal, refuse_unless};

/// The numbers that settle how cards speak on the wire.
///
/// Every plan that exists keeps the limits: q from 2 to 64; n from 1 to q; k at least 1; d from 1 to 32; q^k at most
/// 65,536; d(k-1)+2e below n.
#[derive(Clone, Copy, Debug, PartialEq, Eq)]
pub struct Plan {
    q: u32,
    n: u32,
    k: u32,
    d: u32,
    e: u32,
    cards: u32,
    ghost limits: { plan_exists q n k d e ≡ true },
    ghost counted: { cards ≡ q ^ k },
}

impl Plan {
    ghost use Rattle.words.specs.Calls.{number_check};

    /// The plan with these numbers. The checks, in order: q (1, with q); n, then k, then d (2, with the value);
    /// q^k (3, with k); d(k-1)+2e (4, with that sum).
    pub fn new(q: u32, n: u32, k: u32, d: u32, e: u32) -> Result<Plan, Fault>
        ensures { MatchResult result (λ p. (plan_refusal q n k d e ≡ None) × (p.q ≡ q) × (p.n ≡ n) × (p.k ≡ k) × (p.d ≡ d) × (p.e ≡ e)) (λ f. plan_refusal q n k d e ≡ Some f) }
    {
        refuse_unless(q >= 2 && q <= 64, Refusal::Field, q as u64)?;
        refuse_unless(n >= 1 && n <= q, Refusal::Range, n as u64)?;
        refuse_unless(k >= 1, Refusal::Range, k as u64)?;
        refuse_unless(d >= 1 && d <= 32, Refusal::Range, d as u64)?;
        let Some(cards) = power_within(q, k) else {
            return Err(Fault::new(Refusal::Words, k as u64));
        };
        let burden = d as u64 * (k as u64 - 1) + 2 * e as u64;
        refuse_unless(burden < n as u64, Refusal::Distance, burden)?;
        Ok(Plan {
            q,
            n,
            k,
            d,
            e,
            cards,
        })
    }

    /// The order of the field.
    pub fn q(&self) -> u32
        ensures { result ≡ self.now.q }
    {
        self.q
    }

    /// How many places a word has.
    pub fn n(&self) -> u32
        ensures { result ≡ self.now.n }
    {
        self.n
    }

    /// How many coefficients, the digits of a card's number, a word has.
    pub fn k(&self) -> u32
        ensures { result ≡ self.now.k }
    {
        self.k
    }

    /// How many cards may speak together.
    pub fn d(&self) -> u32
        ensures { result ≡ self.now.d }
    {
        self.d
    }

    /// How many wrong slots are borne.
    pub fn e(&self) -> u32
        ensures { result ≡ self.now.e }
    {
        self.e
    }

    /// How many numbers have a word: q^k.
    pub fn cards(&self) -> u32
        ensures { result ≡ self.now.q ^ self.now.k }
    {
        self.cards
    }

    /// Accepts a number that has a word; any other is refused with 9 and the number.
    pub fn has_word(&self, number: u32) -> Result<(), Fault>
        ensures { result ≡ answer (number_check self.now number None) tt }
    {
        refuse_unless(number < self.cards(), Refusal::Card, number as u64)
    }

    /// How many slots a line has: n times q.
    pub fn slots(&self) -> u32
        ensures { result ≡ self.now.n * self.now.q }
    {
        let places = self.n;
        places * self.q
    }
}

/// q to the power of k, where that is at most 65,536.
#[tactic(auto, using(crate::proofs::Limits::power_large))]
fn power_within(q: u32, k: u32) -> Option<u32>
    requires { 2 ≤ q }
    ensures { SomeIff result (q ^ k ≤ 65536) (q ^ k) }
{
    // No number above 1 has so small a power beyond the 16th. Without this test a large k is multiplied out in vain.
    if k > 16 {
        return None;
    }
    q.checked_pow(k).filter(|power| *power <= 65536)
}
