//! Calls in a frame, and calls with frames of other registers.
use faults::{Fault, Refusal};
use fields::Prime;
use lines::{Line, Packed};
use names::Extension;
use register::{Frame, Refused, Register, Verdict};
use std::process::Abort;
use std::test::Fail;
use words::Plan;

/// Closes a frame that its register has to close.
fn closed(rt: &impl Abort, register: &mut Register<'_, Extension>, frame: Frame) {
    match register.close(frame) {
        Ok(()) => {}
        Err(refusal) => panic!(rt; "its own register refuses the frame"),
    }
}

#[test]
fn an_open_frame_keeps_other_calls_out(rt: HostRuntime) -> Result<(), Fail> {
    let field = Prime::new(5)?;
    let other = Prime::new(7)?;
    let plan = Plan::new(5, 5, 2, 2, 1)?;
    let mut entries = [None; 25];
    let mut register = Register::new(&mut entries, 1968);
    let lodge = Extension::new(0);
    let bar = Extension::new(7);
    register.enrol(&field, &plan, lodge, 0)?;
    let mut bytes = [0xff; 4];
    let mut line = Packed::new(&mut bytes, 25);
    let frame = register.open(&field, &plan, &mut line)?;
    assert_eq!(rt;
        register.enrol(&field, &plan, bar, 99),
        Err(Fault::new(Refusal::Open, 1968))
    );
    assert_eq!(rt; register.strike(&bar), Err(Fault::new(Refusal::Open, 1968)));
    assert_eq!(rt;
        register.tick(&other, &plan, &mut line, &frame, &bar),
        Err(Fault::new(Refusal::Field, 7))
    );
    assert_eq!(rt;
        register.tick(&field, &plan, &mut line, &frame, &bar),
        Err(Fault::new(Refusal::Unknown, 0))
    );
    assert_eq!(rt;
        register.knock(&mut line, &frame, 25),
        Err(Fault::new(Refusal::Slot, 25))
    );
    assert_eq!(rt;
        register.tick(&field, &plan, &mut line, &frame, &lodge),
        Ok(())
    );
    assert_eq!(rt; register.knock(&mut line, &frame, 1), Ok(()));
    let mut list = [77; 2];
    assert_eq!(rt;
        register.read(&field, &plan, &line, &frame, &mut [77]),
        Err(Fault::new(Refusal::Room, 1))
    );
    assert_eq!(rt;
        register.read(&field, &plan, &line, &frame, &mut list),
        Ok(Verdict::Named(1))
    );
    assert_eq!(rt; list, [0, 77]);
    closed(&rt, &mut register, frame);
    assert_eq!(rt; register.strike(&lodge), Ok(()));
    Ok(())
}

#[test]
fn a_frame_of_another_mark_is_refused_and_handed_back(rt: HostRuntime) -> Result<(), Fail> {
    let field = Prime::new(5)?;
    let plan = Plan::new(5, 5, 2, 2, 1)?;
    let mut entries = [None; 25];
    let mut annex_entries = [None; 25];
    let mut house = Register::new(&mut entries, 1968);
    let mut annex = Register::new(&mut annex_entries, 1969);
    let lodge = Extension::new(0);
    annex.enrol(&field, &plan, lodge, 0)?;
    let mut bytes = [0x24, 0xa3, 0x0c, 0x00];
    let mut line = Packed::new(&mut bytes, 25);
    let frame = house.open(&field, &plan, &mut line)?;
    assert_eq!(rt;
        annex.tick(&field, &plan, &mut line, &frame, &lodge),
        Err(Fault::new(Refusal::Mark, 1968))
    );
    assert_eq!(rt;
        annex.knock(&mut line, &frame, 99),
        Err(Fault::new(Refusal::Mark, 1968))
    );
    assert_eq!(rt;
        annex.read(&field, &plan, &line, &frame, &mut []),
        Err(Fault::new(Refusal::Mark, 1968))
    );
    match annex.close(frame) {
        Ok(()) => panic!(rt; "another register closes the frame"),
        Err(Refused { fault, frame }) => {
            assert_eq!(rt; fault, Fault::new(Refusal::Mark, 1968));
            closed(&rt, &mut house, frame);
        }
    }
    for slot in 0..25 {
        assert_eq!(rt; line.look(slot), Ok(false));
    }
    Ok(())
}

#[test]
fn a_frame_of_the_same_mark_passes(rt: HostRuntime) -> Result<(), Fail> {
    let field = Prime::new(5)?;
    let plan = Plan::new(5, 5, 2, 2, 1)?;
    let mut entries = [None; 25];
    let mut annex_entries = [None; 25];
    let mut house = Register::new(&mut entries, 5);
    let mut annex = Register::new(&mut annex_entries, 5);
    let lodge = Extension::new(0);
    annex.enrol(&field, &plan, lodge, 0)?;
    let mut bytes = [0; 4];
    let mut line = Packed::new(&mut bytes, 25);
    let frame = house.open(&field, &plan, &mut line)?;
    assert_eq!(rt;
        annex.tick(&field, &plan, &mut line, &frame, &lodge),
        Err(Fault::new(Refusal::Mark, 5))
    );
    match annex.open(&field, &plan, &mut line) {
        Ok(other) => {
            assert_eq!(rt;
                annex.tick(&field, &plan, &mut line, &frame, &lodge),
                Ok(())
            );
            closed(&rt, &mut annex, frame);
            closed(&rt, &mut house, other);
        }
        Err(fault) => panic!(rt; "the annex opens no frame"),
    }
    Ok(())
}
