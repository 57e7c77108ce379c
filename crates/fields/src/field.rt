//! What a field is, and what its calls answer.
ghost use Rattle.std.specs.Prelude.{◌≡◌};
ghost use Rattle.fields.specs.Lawful.{Tables, Lawful};
ghost use Rattle.fields.specs.Answers.{table_answer, negative_answer, inverse_answer};

use crate::elements::element;
use faults::{Fault, Refusal};

/// A finite field, whose elements are named by the indices below its order.
///
/// Its meaning is its table of sums and its table of products. Every call answers by these tables, the same at every
/// call, and refuses only an index that is no element, and the inverse of 0.
pub trait Field {
    // the order, the table of sums and the table of products
    ghost tables: { Self → Tables };

    /// How many elements there are.
    fn order(&self) -> u32
        ensures { result ≡ (tables self.now).order };

    /// The sum of two elements.
    fn sum(&self, a: u32, b: u32) -> Result<u32, Fault>
        ensures { result ≡ table_answer (tables self.now).order (tables self.now).plus a b };

    /// The element whose sum with `a` is 0.
    fn negative(&self, a: u32) -> Result<u32, Fault>
        ensures { result ≡ negative_answer (tables self.now) a };

    /// The product of two elements.
    fn product(&self, a: u32, b: u32) -> Result<u32, Fault>
        ensures { result ≡ table_answer (tables self.now).order (tables self.now).times a b };

    /// The element whose product with `a` is 1; 0 has none. Where a field brings no quicker way, it is searched for.
    fn inverse(&self, a: u32) -> Result<u32, Fault>
        ensures { result ≡ inverse_answer (tables self.now) a }
    {
        let order = self.order();
        element(order, a)?;
        (1..order)
            .find(|&b| self.product(a, b) == Ok(1))
            .ok_or(Fault::new(Refusal::Element, a as u64))
    }

    ghost lawful: { (f : Self) → Lawful (tables f) };
}
