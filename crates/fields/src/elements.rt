//! What the kinds of field share: the test of an index, and the answer of an operation on two elements.
ghost use Rattle.std.specs.Prelude.{◌≡◌, ℕ, ◌<◌};
ghost use Rattle.fields.specs.Answers.{element_answer, table_answer};

use faults::{Fault, Refusal, refuse_unless};

/// The index of an element of a field of this order; any other index is refused with 6.
pub(crate) fn element(order: u32, index: u32) -> Result<u32, Fault>
    ensures { result ≡ element_answer order index }
{
    refuse_unless(index < order, Refusal::Element, index as u64)?;
    Ok(index)
}

/// What an operation gives for two elements; the first index that is no element is refused with 6.
pub(crate) fn combined<F: FnOnce(u32, u32) -> u32>(
    order: u32,
    a: u32,
    b: u32,
    operation: F,
) -> Result<u32, Fault>
    requires { a < order → b < order → F.pre operation a b }
    ensures { (v : ℕ) × (a < order → b < order → F.post operation a b v) × (result ≡ table_answer order (λ _ _. v) a b) }
{
    Ok(operation(element(order, a)?, element(order, b)?))
}
