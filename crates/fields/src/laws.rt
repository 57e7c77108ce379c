//! What is proved of the definitions of fields, besides what each call's contract says.
//!
//! These functions do nothing. Each one's contract is a theorem, so that the crate is proved only with the theorem.
ghost use Rattle.fields.specs.Theorems.{IrreducibleModuliMakeFields, RemaindersDifferByMultiples, PartnersAreUnique};

/// Every irreducible modulus of degree 2 to 6 makes a lawful binary field.
pub fn irreducible_moduli_make_fields()
    ensures { IrreducibleModuliMakeFields }
{}

/// A remainder is short, and differs from what was divided by a multiple of the modulus.
pub fn remainders_differ_by_multiples_of_the_modulus()
    ensures { RemaindersDifferByMultiples }
{}

/// The answered negatives and inverses are the only elements that the tables allow.
pub fn negatives_and_inverses_are_unique()
    ensures { PartnersAreUnique }
{}
