//! Enrolling, striking and judging without a frame.
use faults::{Fault, Refusal};
use fields::Prime;
use lines::Packed;
use names::{Extension, RoomLabel};
use register::{Register, Verdict};
use std::test::Fail;
use words::Plan;

#[test]
fn enrolling_is_refused_in_order(rt: HostRuntime) -> Result<(), Fail> {
    let field = Prime::new(5)?;
    let other = Prime::new(7)?;
    let plan = Plan::new(5, 5, 2, 2, 1)?;
    let mut entries = [None; 8];
    let mut register = Register::new(&mut entries, 1968);
    let lodge = Extension::new(0);
    let bar = Extension::new(7);
    assert_eq!(rt;
        register.enrol(&other, &plan, lodge, 99),
        Err(Fault::new(Refusal::Field, 7))
    );
    assert_eq!(rt;
        register.enrol(&field, &plan, lodge, 8),
        Err(Fault::new(Refusal::Card, 8))
    );
    assert_eq!(rt; register.enrol(&field, &plan, lodge, 3), Ok(()));
    assert_eq!(rt;
        register.enrol(&field, &plan, lodge, 3),
        Err(Fault::new(Refusal::Taken, 3))
    );
    assert_eq!(rt;
        register.enrol(&field, &plan, lodge, 4),
        Err(Fault::new(Refusal::Enrolled, 3))
    );
    assert_eq!(rt; register.enrol(&field, &plan, bar, 4), Ok(()));
    assert_eq!(rt;
        (register.number_of(&lodge), register.number_of(&bar)),
        (Some(3), Some(4))
    );
    assert_eq!(rt;
        (register.is_enrolled(3), register.is_enrolled(5)),
        (true, false)
    );
    Ok(())
}

#[test]
fn a_number_without_a_word_is_refused(rt: HostRuntime) -> Result<(), Fail> {
    let field = Prime::new(2)?;
    let plan = Plan::new(2, 2, 1, 1, 0)?;
    let mut entries = [None; 8];
    let mut register = Register::new(&mut entries, 1);
    assert_eq!(rt;
        register.enrol(&field, &plan, Extension::new(1), 2),
        Err(Fault::new(Refusal::Card, 2))
    );
    assert_eq!(rt; register.enrol(&field, &plan, Extension::new(1), 1), Ok(()));
    Ok(())
}

#[test]
fn striking_takes_a_name_off(rt: HostRuntime) -> Result<(), Fail> {
    let field = Prime::new(5)?;
    let plan = Plan::new(5, 5, 2, 2, 1)?;
    let mut entries = [None; 8];
    let mut register = Register::new(&mut entries, 1968);
    let lodge = Extension::new(0);
    assert_eq!(rt;
        register.strike(&lodge),
        Err(Fault::new(Refusal::Unknown, 0))
    );
    register.enrol(&field, &plan, lodge, 0)?;
    assert_eq!(rt; register.strike(&lodge), Ok(()));
    assert_eq!(rt; register.number_of(&lodge), None);
    assert_eq!(rt; register.enrol(&field, &plan, lodge, 1), Ok(()));
    Ok(())
}

#[test]
fn room_labels_are_the_same_in_either_case(rt: HostRuntime) -> Result<(), Fail> {
    let field = Prime::new(5)?;
    let plan = Plan::new(5, 5, 2, 2, 1)?;
    let mut entries = [None; 25];
    let mut register = Register::new(&mut entries, 7);
    let suite = RoomLabel::new(*b"Suite 12");
    let loud = RoomLabel::new(*b"SUITE 12");
    let next = RoomLabel::new(*b"SUITE 13");
    register.enrol(&field, &plan, suite, 24)?;
    assert_eq!(rt;
        register.enrol(&field, &plan, loud, 0),
        Err(Fault::new(Refusal::Enrolled, 24))
    );
    assert_eq!(rt; register.enrol(&field, &plan, next, 0), Ok(()));
    assert_eq!(rt; register.number_of(&loud), Some(24));
    assert_eq!(rt; register.strike(&loud), Ok(()));
    assert_eq!(rt; register.number_of(&suite), None);
    Ok(())
}

#[test]
fn judging_is_refused_in_order(rt: HostRuntime) -> Result<(), Fail> {
    let field = Prime::new(5)?;
    let other = Prime::new(7)?;
    let plan = Plan::new(5, 5, 2, 2, 1)?;
    let mut entries = [None; 25];
    let mut register = Register::new(&mut entries, 1968);
    register.enrol(&field, &plan, Extension::new(0), 0)?;
    register.enrol(&field, &plan, Extension::new(7), 7)?;
    let mut bytes = [0x24, 0xa3, 0x0c, 0x00];
    let mut list = [77; 3];
    let line = Packed::new(&mut bytes, 24);
    assert_eq!(rt;
        register.judge(&other, &plan, &line, &mut []),
        Err(Fault::new(Refusal::Field, 7))
    );
    assert_eq!(rt;
        register.judge(&field, &plan, &line, &mut []),
        Err(Fault::new(Refusal::Line, 24))
    );
    let line = Packed::new(&mut bytes, 25);
    assert_eq!(rt;
        register.judge(&field, &plan, &line, &mut [77]),
        Err(Fault::new(Refusal::Room, 1))
    );
    assert_eq!(rt;
        register.judge(&field, &plan, &line, &mut list),
        Ok(Verdict::Named(2))
    );
    assert_eq!(rt; list, [0, 7, 77]);
    let mut text = [0x2a; 300];
    assert_eq!(rt;
        register.judge_text(&field, &plan, &line, &mut list, &mut text[..255]),
        Err(Fault::new(Refusal::Room, 255))
    );
    assert_eq!(rt;
        register.judge_text(&field, &plan, &line, &mut list, &mut text),
        Ok(8)
    );
    assert!(rt; text.starts_with(b"N 2 0 7\n*"));
    register.strike(&Extension::new(7))?;
    let line = Packed::new(&mut bytes, 25);
    assert_eq!(rt;
        register.judge(&field, &plan, &line, &mut list),
        Ok(Verdict::Foreign {
            smallest: 7,
            count: 2,
        })
    );
    Ok(())
}
