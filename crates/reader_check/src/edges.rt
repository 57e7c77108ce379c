//! Worked lines, lines at the edges, and every refusal in its order.
use faults::{Fault, Refusal};
use fields::{Binary, Field, Prime};
use lines::Packed;
use reader::{Verdict, read};
use std::test::Fail;
use words::Plan;

/// What a packed frame is read as, and the first four of a list of 40 that held 77.
fn read_frame<F: Field>(
    field: &F,
    plan: &Plan,
    frame: &mut [u8],
    slots: u32,
) -> (Result<Verdict, Fault>, [u32; 4]) {
    let mut list = [77; 40];
    let verdict = read(field, plan, &Packed::new(frame, slots), &mut list);
    (verdict, [list[0], list[1], list[2], list[3]])
}

#[test]
fn worked_lines(rt: HostRuntime) -> Result<(), Fail> {
    let field = Prime::new(5)?;
    let plan = Plan::new(5, 5, 2, 2, 1)?;
    assert_eq!(rt;
        read_frame(&field, &plan, &mut [0x24, 0xa3, 0x0c, 0x00], 25),
        (Ok(Verdict::Reading(2)), [0, 7, 77, 77])
    );
    assert_eq!(rt;
        read_frame(&field, &plan, &mut [0x80, 0x00, 0x00, 0x00], 25),
        (Ok(Verdict::Reading(0)), [77; 4])
    );
    assert_eq!(rt;
        read_frame(&field, &plan, &mut [0xc0, 0x00, 0x00, 0x00], 25),
        (Ok(Verdict::Noise(2)), [77; 4])
    );
    Ok(())
}

#[test]
fn all_slots_and_none(rt: HostRuntime) -> Result<(), Fail> {
    let field = Prime::new(5)?;
    let plan = Plan::new(5, 5, 2, 2, 1)?;
    assert_eq!(rt;
        read_frame(&field, &plan, &mut [0xff; 4], 25),
        (Ok(Verdict::Overload(25)), [77; 4])
    );
    assert_eq!(rt;
        read_frame(&field, &plan, &mut [0; 4], 25),
        (Ok(Verdict::Reading(0)), [77; 4])
    );
    let field = Binary::new(4)?;
    let plan = Plan::new(16, 16, 4, 1, 6)?;
    assert_eq!(rt;
        read_frame(&field, &plan, &mut [0xff; 32], 256),
        (Ok(Verdict::Overload(65536)), [77; 4])
    );
    assert_eq!(rt;
        read_frame(&field, &plan, &mut [0; 32], 256),
        (Ok(Verdict::Reading(0)), [77; 4])
    );
    Ok(())
}

#[test]
fn as_many_cards_as_may_speak(rt: HostRuntime) -> Result<(), Fail> {
    let field = Prime::new(37)?;
    let plan = Plan::new(37, 1, 1, 32, 0)?;
    let mut list = [0; 32];
    let mut frame = [0xff, 0xff, 0xff, 0xff, 0x00];
    assert_eq!(rt;
        read(&field, &plan, &Packed::new(&mut frame, 37), &mut list),
        Ok(Verdict::Reading(32))
    );
    assert_eq!(rt; (list[0], list[1], list[31]), (0, 1, 31));
    let mut list = [0; 32];
    frame[4] = 0x80;
    assert_eq!(rt;
        read(&field, &plan, &Packed::new(&mut frame, 37), &mut list),
        Ok(Verdict::Overload(33))
    );
    assert_eq!(rt; list, [0; 32]);
    Ok(())
}

#[test]
fn one_coefficient_and_no_fault(rt: HostRuntime) -> Result<(), Fail> {
    let field = Binary::new(2)?;
    let plan = Plan::new(4, 2, 1, 2, 0)?;
    assert_eq!(rt;
        read_frame(&field, &plan, &mut [0b0101_0101], 8),
        (Ok(Verdict::Reading(2)), [1, 3, 77, 77])
    );
    assert_eq!(rt;
        read_frame(&field, &plan, &mut [0b0101_0100], 8),
        (Ok(Verdict::Noise(1)), [77; 4])
    );
    Ok(())
}

#[test]
fn refusals_in_order(rt: HostRuntime) -> Result<(), Fail> {
    let field = Prime::new(5)?;
    let plan = Plan::new(5, 5, 2, 2, 1)?;
    let mut frame = [0x24, 0xa3, 0x0c, 0x00];
    let mut short = [77; 1];
    assert_eq!(rt;
        read(
            &Binary::new(6)?,
            &plan,
            &Packed::new(&mut frame, 24),
            &mut short,
        ),
        Err(Fault::new(Refusal::Field, 64))
    );
    assert_eq!(rt;
        read(&field, &plan, &Packed::new(&mut frame, 24), &mut short),
        Err(Fault::new(Refusal::Line, 24))
    );
    assert_eq!(rt;
        read(&field, &plan, &Packed::new(&mut frame, 26), &mut short),
        Err(Fault::new(Refusal::Line, 26))
    );
    assert_eq!(rt;
        read(&field, &plan, &Packed::new(&mut frame, 25), &mut short),
        Err(Fault::new(Refusal::Room, 1))
    );
    assert_eq!(rt;
        read(&field, &plan, &Packed::new(&mut frame, 25), &mut []),
        Err(Fault::new(Refusal::Room, 0))
    );
    assert_eq!(rt; short, [77]);
    assert_eq!(rt; frame, [0x24, 0xa3, 0x0c, 0x00]);
    Ok(())
}
