//! Words, their slots and their frames.
use crate::answers::refused;
use faults::Refusal;
use fields::{Binary, Prime};
use std::test::Fail;
use words::{Plan, place_and_symbol, slot, symbol, write_word};

#[test]
fn symbols_and_slots_of_a_word(rt: HostRuntime) -> Result<(), Fail> {
    let field = Prime::new(5)?;
    let plan = Plan::new(5, 5, 2, 2, 1)?;
    for (place, expected) in [(0, 2), (1, 3), (2, 4), (3, 0), (4, 1)] {
        assert_eq!(rt; symbol(&field, &plan, 7, place), Ok(expected));
        assert_eq!(rt; slot(&field, &plan, 7, place), Ok(place * 5 + expected));
    }
    let field = Binary::new(2)?;
    let plan = Plan::new(4, 4, 2, 1, 1)?;
    for (place, expected) in [(0, 1), (1, 3), (2, 2), (3, 0)] {
        assert_eq!(rt; symbol(&field, &plan, 9, place), Ok(expected));
    }
    Ok(())
}

#[test]
fn a_place_is_refused_in_order(rt: HostRuntime) -> Result<(), Fail> {
    let plan = Plan::new(5, 4, 2, 2, 0)?;
    let other = Binary::new(6)?;
    assert_eq!(rt; symbol(&other, &plan, 99, 99), refused(Refusal::Field, 64));
    let field = Prime::new(5)?;
    assert_eq!(rt; symbol(&field, &plan, 25, 99), refused(Refusal::Card, 25));
    assert_eq!(rt; slot(&field, &plan, 24, 4), refused(Refusal::Slot, 20));
    assert_eq!(rt;
        slot(&field, &plan, 24, u32::MAX),
        refused(Refusal::Slot, 21474836475)
    );
    Ok(())
}

#[test]
fn a_slot_has_a_place_and_a_symbol(rt: HostRuntime) -> Result<(), Fail> {
    let field = Prime::new(5)?;
    let plan = Plan::new(5, 5, 2, 2, 1)?;
    assert_eq!(rt; place_and_symbol(&field, &plan, 14), Ok((2, 4)));
    assert_eq!(rt; place_and_symbol(&field, &plan, 24), Ok((4, 4)));
    assert_eq!(rt;
        place_and_symbol(&field, &plan, 25),
        refused(Refusal::Slot, 25)
    );
    let other = Prime::new(7)?;
    assert_eq!(rt;
        place_and_symbol(&other, &plan, 25),
        refused(Refusal::Field, 7)
    );
    Ok(())
}

#[test]
fn a_word_is_written_and_spare_bits_stay(rt: HostRuntime) -> Result<(), Fail> {
    let field = Prime::new(5)?;
    let plan = Plan::new(5, 5, 2, 2, 1)?;
    let mut frame = [0xFF; 4];
    write_word(&field, &plan, 0, &mut frame)?;
    assert_eq!(rt; frame, [0x84, 0x21, 0x08, 0x7F]);
    write_word(&field, &plan, 7, &mut frame)?;
    assert_eq!(rt; frame, [0x20, 0x83, 0x04, 0x7F]);
    let field = Binary::new(2)?;
    let plan = Plan::new(4, 4, 2, 1, 1)?;
    let mut short = [0; 2];
    write_word(&field, &plan, 9, &mut short)?;
    assert_eq!(rt; short, [0x41, 0x28]);
    Ok(())
}

#[test]
fn a_refused_word_leaves_the_frame(rt: HostRuntime) -> Result<(), Fail> {
    let plan = Plan::new(5, 5, 2, 2, 1)?;
    let other = Prime::new(3)?;
    let mut frame = [0xC3; 3];
    assert_eq!(rt;
        write_word(&other, &plan, 25, &mut frame),
        refused(Refusal::Field, 3)
    );
    let field = Prime::new(5)?;
    assert_eq!(rt;
        write_word(&field, &plan, 25, &mut frame),
        refused(Refusal::Length, 3)
    );
    let mut right = [0xC3; 4];
    assert_eq!(rt;
        write_word(&field, &plan, 25, &mut right),
        refused(Refusal::Card, 25)
    );
    assert_eq!(rt; right, [0xC3; 4]);
    Ok(())
}
