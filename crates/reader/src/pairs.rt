//! What any two elements of a field give, as a table.
ghost use Rattle.std.specs.Prelude.{◌≡◌, ◌<◌, ◌≤◌, Ok, IsOk};
ghost use Rattle.reader.specs.Working.{pair_of, Paired};

use faults::Fault;
use fields::Field;
use words::Code;

/// As many pairs as the elements of the largest field make.
pub(crate) const PAIRS: usize = 4096;

/// What elements a and b give: their sum, their product, and b without a.
#[derive(Clone, Copy, Default)]
pub(crate) struct Pair {
    pub(crate) sum: u8,
    pub(crate) product: u8,
    pub(crate) difference: u8,
}

/// What two elements give.
fn pair_of<F: Field>(field: &F, a: u32, b: u32) -> Result<Pair, Fault>
    requires first { a < (F.Field.tables field.now).order }
    requires second { b < (F.Field.tables field.now).order }
    requires few { (F.Field.tables field.now).order ≤ 64 }
    ensures { result ≡ Ok (pair_of (F.Field.tables field.now) a b) }
{
    Ok(Pair {
        sum: field.sum(a, b)? as u8,
        product: field.product(a, b)? as u8,
        difference: field.sum(b, field.negative(a)?)? as u8,
    })
}

/// Fills a table with what any two elements a and b give, at a × q + b.
pub(crate) fn pair_up<F: Field>(code: &Code<'_, F>, pairs: &mut [Pair; PAIRS]) -> Result<(), Fault>
    ensures accepted { IsOk result }
    ensures paired { Paired (F.Field.tables code.now.field.now) pairs.new }
{
    let q = code.field.order() as usize;
    // Row by row: through rows lent by `chunks_mut` a proof does not learn what was written, and one chain over all pairs, with
    // a quotient and a remainder for each, missed the speed of this one.
    for a in 0..q {
        let row = &mut pairs[a * q..a * q + q];
        for (b, pair) in row.iter_mut().enumerate() {
            *pair = pair_of(code.field, a as u32, b as u32)?;
        }
    }
    Ok(())
}
