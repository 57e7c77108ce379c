//! Refusals print their number, their meaning and their figure.
use crate::answers::refused;
use faults::{Fault, Refusal, refuse_unless};
use std::test::Fail;

#[test]
fn a_fault_is_printed_in_words(rt: HostRuntime) -> Result<(), Fail> {
    let fault = Fault::new(Refusal::Distance, 17);
    let text = format!(in rt.alloc(); "{fault}")?;
    assert!(rt; text.as_str() == "refusal 4, d(k-1)+2e is not below n: 17");
    Ok(())
}

#[test]
fn numbers_go_from_1_to_16(rt: HostRuntime) {
    assert_eq!(rt; Refusal::Field.number(), 1);
    assert_eq!(rt; Refusal::Slot.number(), 7);
    assert_eq!(rt; Refusal::Spare.number(), 16);
}

#[test]
fn a_check_refuses_where_its_test_fails(rt: HostRuntime) {
    assert_eq!(rt; refuse_unless(true, Refusal::Room, 3), Ok(()));
    assert_eq!(rt;
        refuse_unless(false, Refusal::Room, 3),
        refused(Refusal::Room, 3)
    );
}
