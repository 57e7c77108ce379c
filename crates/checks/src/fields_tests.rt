//! Which fields there are, and what their calls answer at the edges.
use crate::answers::refused;
use faults::{Fault, Refusal};
use fields::{AnyField, Binary, Field, FieldChoice, Prime};
use std::process::Abort;
use std::test::Fail;

const PRIMES: [u32; 18] = [
    2, 3, 5, 7, 11, 13, 17, 19, 23, 29, 31, 37, 41, 43, 47, 53, 59, 61,
];

/// The order of a chosen field, or its refusal.
fn order_of(choice: FieldChoice) -> Result<u32, Fault> {
    Ok(AnyField::try_from(choice)?.order())
}

#[test]
fn every_prime_up_to_61_is_a_field_and_nothing_else(rt: HostRuntime) {
    for p in 0..70u32 {
        let expected = if PRIMES.contains(&p) {
            Ok(p)
        } else {
            refused(Refusal::Field, p as u64)
        };
        assert_eq!(rt; order_of(FieldChoice::Prime(p)), expected);
    }
    assert_eq!(rt;
        order_of(FieldChoice::Prime(u32::MAX)),
        refused(Refusal::Field, u32::MAX as u64)
    );
}

#[test]
fn binary_fields_go_from_4_to_64_elements(rt: HostRuntime) {
    assert_eq!(rt;
        order_of(FieldChoice::Binary(1)),
        refused(Refusal::Field, 1)
    );
    for (m, order) in [(2, 4), (3, 8), (4, 16), (5, 32), (6, 64)] {
        assert_eq!(rt; order_of(FieldChoice::Binary(m)), Ok(order));
    }
    assert_eq!(rt;
        order_of(FieldChoice::Binary(7)),
        refused(Refusal::Field, 7)
    );
    assert_eq!(rt;
        order_of(FieldChoice::Binary(u32::MAX)),
        refused(Refusal::Field, u32::MAX as u64)
    );
}

#[test]
fn binary_products_are_reduced(rt: HostRuntime) -> Result<(), Fail> {
    let four = Binary::new(2)?;
    assert_eq!(rt; four.product(2, 3), Ok(1));
    assert_eq!(rt; four.product(3, 3), Ok(2));
    let largest = Binary::new(6)?;
    assert_eq!(rt; largest.product(32, 2), Ok(3));
    assert_eq!(rt; largest.sum(63, 21), Ok(42));
    Ok(())
}

#[test]
fn prime_sums_and_products_are_taken_modulo_p(rt: HostRuntime) -> Result<(), Fail> {
    let five = Prime::new(5)?;
    assert_eq!(rt; five.sum(4, 3), Ok(2));
    assert_eq!(rt; five.sum(2, 2), Ok(4));
    assert_eq!(rt; five.product(4, 3), Ok(2));
    assert_eq!(rt; five.negative(0), Ok(0));
    assert_eq!(rt; five.negative(2), Ok(3));
    assert_eq!(rt; five.inverse(3), Ok(2));
    Ok(())
}

#[test]
fn the_first_index_that_is_no_element_is_refused(rt: HostRuntime) -> Result<(), Fail> {
    let five = Prime::new(5)?;
    assert_eq!(rt; five.sum(5, 9), refused(Refusal::Element, 5));
    assert_eq!(rt; five.sum(4, 5), refused(Refusal::Element, 5));
    assert_eq!(rt;
        five.product(0, u32::MAX),
        refused(Refusal::Element, u32::MAX as u64)
    );
    assert_eq!(rt; five.negative(5), refused(Refusal::Element, 5));
    assert_eq!(rt; five.inverse(0), refused(Refusal::Element, 0));
    assert_eq!(rt; five.inverse(5), refused(Refusal::Element, 5));
    let four = Binary::new(2)?;
    assert_eq!(rt; four.sum(4, 9), refused(Refusal::Element, 4));
    assert_eq!(rt; four.inverse(0), refused(Refusal::Element, 0));
    assert_eq!(rt; four.negative(4), refused(Refusal::Element, 4));
    Ok(())
}

/// Checks that every element has its negative, and every element but 0 its inverse.
fn partners_meet(rt: &impl Abort, choice: FieldChoice) -> Result<(), Fail> {
    let field = AnyField::try_from(choice)?;
    for a in 0..field.order() {
        assert_eq!(rt; field.sum(a, field.negative(a)?), Ok(0));
        if a > 0 {
            assert_eq!(rt; field.product(a, field.inverse(a)?), Ok(1));
        }
    }
    Ok(())
}

#[test]
fn negatives_and_inverses_meet_in_every_field(rt: HostRuntime) -> Result<(), Fail> {
    for p in PRIMES {
        partners_meet(&rt, FieldChoice::Prime(p))?;
    }
    for m in 2..7 {
        partners_meet(&rt, FieldChoice::Binary(m))?;
    }
    Ok(())
}
