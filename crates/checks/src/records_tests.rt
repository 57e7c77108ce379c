//! Plan records, read and written, and each refusal in its order.
use crate::answers::refused;
use faults::{Fault, Refusal};
use fields::FieldChoice;
use std::test::Fail;
use words::{NameKind, PlanRecord};

const PLAN_A: PlanRecord = PlanRecord {
    field: FieldChoice::Prime(5),
    n: 5,
    k: 2,
    d: 2,
    e: 1,
    names: NameKind::Extensions,
};

const LARGEST: PlanRecord = PlanRecord {
    field: FieldChoice::Binary(6),
    n: 64,
    k: 2,
    d: 32,
    e: 15,
    names: NameKind::RoomLabels,
};

#[test]
fn records_are_read(rt: HostRuntime) {
    assert_eq!(rt; PlanRecord::read(&[0x05, 0x0A, 0x82, 0x08]), Ok(PLAN_A));
    assert_eq!(rt; PlanRecord::read(&[0x46, 0x80, 0xA0, 0x7C]), Ok(LARGEST));
}

#[test]
fn reading_refuses_in_order(rt: HostRuntime) {
    assert_eq!(rt;
        PlanRecord::read(&[0xFF, 0xFF, 0xFF]),
        refused(Refusal::Length, 3)
    );
    assert_eq!(rt;
        PlanRecord::read(&[0x05, 0x0A, 0x82, 0x08, 0x00]),
        refused(Refusal::Length, 5)
    );
    assert_eq!(rt;
        PlanRecord::read(&[0xFF, 0xFF, 0xFF, 0xFF]),
        refused(Refusal::Spare, 30)
    );
    assert_eq!(rt;
        PlanRecord::read(&[0xFF, 0xFF, 0xFF, 0xFD]),
        refused(Refusal::Spare, 31)
    );
    assert_eq!(rt;
        PlanRecord::read(&[0x85, 0x0A, 0x82, 0x08]),
        refused(Refusal::Field, 5)
    );
    assert_eq!(rt;
        PlanRecord::read(&[0xC9, 0x00, 0x00, 0x00]),
        refused(Refusal::Field, 9)
    );
    assert_eq!(rt;
        PlanRecord::read(&[0x04, 0x00, 0x00, 0x00]),
        refused(Refusal::Field, 4)
    );
    assert_eq!(rt;
        PlanRecord::read(&[0x47, 0x00, 0x00, 0x00]),
        refused(Refusal::Field, 7)
    );
    assert_eq!(rt;
        PlanRecord::read(&[0x05, 0x0C, 0x82, 0x08]),
        refused(Refusal::Range, 6)
    );
    assert_eq!(rt;
        PlanRecord::read(&[0x05, 0x0A, 0x02, 0x08]),
        refused(Refusal::Range, 0)
    );
    assert_eq!(rt;
        PlanRecord::read(&[0x05, 0x0A, 0xA1, 0x08]),
        refused(Refusal::Range, 33)
    );
    assert_eq!(rt;
        PlanRecord::read(&[0x05, 0x0B, 0xC2, 0x08]),
        refused(Refusal::Words, 7)
    );
    assert_eq!(rt;
        PlanRecord::read(&[0x05, 0x0A, 0x82, 0x10]),
        refused(Refusal::Distance, 6)
    );
}

#[test]
fn records_are_written_or_the_target_stays(rt: HostRuntime) -> Result<(), Fail> {
    let mut target = [0xAA; 4];
    PLAN_A.write(&mut target)?;
    assert_eq!(rt; target, [0x05, 0x0A, 0x82, 0x08]);
    LARGEST.write(&mut target)?;
    assert_eq!(rt; target, [0x46, 0x80, 0xA0, 0x7C]);
    let mut long = [0xAA; 5];
    assert_eq!(rt; PLAN_A.write(&mut long), refused(Refusal::Length, 5));
    assert_eq!(rt; long, [0xAA; 5]);
    Ok(())
}

/// What writing a record like the first, with another field and number of places, answers, and the target after it.
fn writing(field: FieldChoice, n: u32) -> (Result<(), Fault>, [u8; 4]) {
    let mut target = [0xAA; 4];
    let record = PlanRecord { field, n, ..PLAN_A };
    let answer = record.write(&mut target);
    (answer, target)
}

#[test]
fn writing_refuses_what_reading_refuses(rt: HostRuntime) {
    let (answer, target) = writing(FieldChoice::Prime(62), 5);
    assert_eq!(rt; answer, refused(Refusal::Field, 62));
    assert_eq!(rt; target, [0xAA; 4]);
    let (answer, target) = writing(FieldChoice::Binary(2), 5);
    assert_eq!(rt; answer, refused(Refusal::Range, 5));
    assert_eq!(rt; target, [0xAA; 4]);
}
