//! What the higher coefficients make of each symbol, as a table.
ghost use Rattle.std.specs.Prelude.{◌≡◌, replicate};
ghost use Rattle.reader.specs.Working.{Paired, Based, BasedBelow, base};

use crate::pairs::{PAIRS, Pair};
use fields::Field;
use words::Code;

/// As many bases as any plan needs: a plan has at most that many words.
pub(crate) const BASES: usize = 65536;

/// The base of some higher coefficients at a place, made of that of these coefficients but the lowest of them, which
/// is among the bases of the smaller ones.
fn base_at<F: Field>(
    code: &Code<'_, F>,
    pairs: &[Pair; PAIRS],
    smaller: &[u8],
    high: usize,
    place: usize,
) -> u8
    requires { BasedBelow (F.Field.tables code.now.field.now) code.now.plan.now pairs.now smaller.now high place }
    ensures { result ≡ base (F.Field.tables code.now.field.now) code.now.plan.now.k high place }
{
    let q = code.field.order() as usize;
    let upper = smaller[high / q * code.plan.n() as usize + place] as usize;
    let sum = pairs[high % q * q + upper].sum as usize;
    pairs[place * q + sum].product
}

/// Fills a table of zeros with the bases of all words: at high × n + place, what the coefficients above the lowest, which
/// are the digits of high, make of the symbol there.
pub(crate) fn base_up<F: Field>(code: &Code<'_, F>, pairs: &[Pair; PAIRS], bases: &mut [u8; BASES])
    requires paired { Paired (F.Field.tables code.now.field.now) pairs.now }
    requires zeros { bases.old ≡ replicate 65536 0 }
    ensures { Based (F.Field.tables code.now.field.now) code.now.plan.now.n code.now.plan.now.k bases.new }
{
    let n = code.plan.n() as usize;
    // Row by row: each is made of earlier ones, which nothing could read while a chain lent all rows.
    for high in 1..(code.plan.cards() / code.plan.q()) as usize {
        let (smaller, rest) = bases.split_at_mut(high * n);
        let row = &mut rest[..n];
        for (place, base) in row.iter_mut().enumerate() {
            *base = base_at(code, pairs, smaller, high, place);
        }
    }
}
