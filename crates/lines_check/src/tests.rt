//! Tests of every kind of line at its edges, and of lines over lines against the plain rule.
use super::{line_levels, packed_bytes};
use faults::{Fault, Refusal};
use lines::{Inverted, Junction, Level, Line, Packed, Stride, drop_all};
use std::process::Abort;
use std::test::Fail;

/// The refusal of a slot past the row.
fn no_slot(slot: u32) -> Fault {
    Fault::new(Refusal::Slot, slot as u64)
}

/// Every call on the first slot past a row is refused with the slot.
fn ends_at<L: Line>(rt: &impl Abort, line: &mut L, slots: u32) {
    assert_eq!(rt; (*line).slots(), slots);
    assert_eq!(rt; line.drive(slots), Err(no_slot(slots)));
    assert_eq!(rt; line.drop(slots), Err(no_slot(slots)));
    assert_eq!(rt; (*line).look(slots), Err(no_slot(slots)));
}

/// The packed line of so many slots told over 513 bytes, and the inverted line over it, have as many as expected.
fn packed_ends_at(rt: &impl Abort, told: u32, slots: u32) {
    let mut bytes = [0xff; 513];
    let mut line = Packed::new(&mut bytes, told);
    ends_at(rt, &mut line, slots);
    ends_at(rt, &mut Inverted::new(line), slots);
}

#[test]
fn packed_counts(rt: HostRuntime) {
    for (told, slots) in [(0, 0), (1, 1), (12, 12), (4096, 4096), (4097, 4096)] {
        packed_ends_at(&rt, told, slots);
    }
    ends_at(&rt, &mut Packed::new(&mut [0; 2], 99), 16);
    ends_at(&rt, &mut Packed::new(&mut [], 99), 0);
}

#[test]
fn packed_spare_bits(rt: HostRuntime) {
    assert_eq!(rt; packed_bytes([0x00, 0x0f], 11, 0), [0x00, 0x1f]);
    assert_eq!(rt; packed_bytes([0xff, 0xff], 12, 8), [0xff, 0x7f]);
    assert_eq!(rt; packed_bytes([0x00, 0x00], 7, 12), [0x01, 0x00]);
}

#[test]
fn level_counts(rt: HostRuntime) {
    ends_at(&rt, &mut Level::new(&mut []), 0);
    ends_at(&rt, &mut Level::new(&mut [0; 1]), 1);
    ends_at(&rt, &mut Level::new(&mut [0; 4096]), 4096);
    ends_at(&rt, &mut Level::new(&mut [0; 4097]), 4096);
}

#[test]
fn levels_rise_and_fall(rt: HostRuntime) {
    assert_eq!(rt; line_levels([0, 1, 65535], 0, 1), [1, 0, 65535]);
    assert_eq!(rt; line_levels([0, 1, 65535], 2, 3), [0, 1, 65535]);
    assert_eq!(rt; line_levels([7, 65534, 0], 1, 0), [0, 65535, 0]);
}

/// The stride line over a line of so many slots has as many as expected.
fn stride_ends_at(rt: &impl Abort, below: u32, stride: u32, slots: u32) {
    let mut bytes = [0; 512];
    ends_at(
        rt,
        &mut Stride::new(Packed::new(&mut bytes, below), stride),
        slots,
    );
}

#[test]
fn stride_counts(rt: HostRuntime) {
    for (slots, stride) in [
        (12, 1),
        (12, 5),
        (8, 4095),
        (4096, 4095),
        (1, 1),
        (1, 4095),
        (0, 1),
    ] {
        stride_ends_at(&rt, slots, stride, slots);
    }
    for (slots, stride) in [(12, 0), (12, 4096), (12, 8), (9, 4095), (1, 4096), (0, 2)] {
        stride_ends_at(&rt, slots, stride, 0);
    }
}

#[test]
fn widest_stride(rt: HostRuntime) -> Result<(), Fail> {
    let mut bytes = [0; 512];
    let mut line = Stride::new(Packed::new(&mut bytes, 4096), 4095);
    line.drive(1)?;
    line.drive(4095)?;
    let packed = line.into_below();
    assert_eq!(rt;
        (packed.look(0)?, packed.look(1)?, packed.look(4095)?),
        (false, true, true)
    );
    Ok(())
}

#[test]
fn stride_over_inverted_over_packed(rt: HostRuntime) -> Result<(), Fail> {
    let start = [0b1010_0110, 0b0110_1111];
    for i in 0..12 {
        let place = 5 * i % 12;
        let mut bytes = start;
        let mut line = Stride::new(Inverted::new(Packed::new(&mut bytes, 12)), 5);
        assert_eq!(rt; line.look(i)?, !frames::look(&start, place)?);
        line.drive(i)?;
        let mut expected = start;
        frames::put(&mut expected, place, false)?;
        assert_eq!(rt; bytes, expected);
    }
    Ok(())
}

#[test]
fn junction_of_level_and_inverted(rt: HostRuntime) -> Result<(), Fail> {
    let mut levels = [0, 3, 0];
    let mut bytes = [0b1110_0000];
    let mut line = Junction::new(
        Level::new(&mut levels),
        Inverted::new(Packed::new(&mut bytes, 3)),
    );
    ends_at(&rt, &mut line, 3);
    assert_eq!(rt;
        (line.look(0)?, line.look(1)?, line.look(2)?),
        (false, true, false)
    );
    line.drive(0)?;
    line.drive(1)?;
    line.drop(2)?;
    assert_eq!(rt;
        (line.look(0)?, line.look(1)?, line.look(2)?),
        (true, true, false)
    );
    line.drop(1)?;
    assert_eq!(rt; line.look(1)?, false);
    assert_eq!(rt; (levels, bytes), ([1, 0, 0], [0b1110_0000]));
    Ok(())
}

#[test]
fn junction_of_unequal_counts(rt: HostRuntime) {
    let mut levels = [7; 3];
    let mut bytes = [0xff];
    let mut line = Junction::new(Packed::new(&mut bytes, 4), Level::new(&mut levels));
    ends_at(&rt, &mut line, 0);
    let (packed, level) = line.into_below();
    assert_eq!(rt; (packed.slots(), level.slots()), (4, 3));
}

#[test]
fn every_slot_dropped_through_a_lent_stack(rt: HostRuntime) -> Result<(), Fail> {
    let mut bytes = [0b1010_0110, 0b0110_1001];
    let mut packed = Packed::new(&mut bytes, 12);
    let mut line = Stride::new(Inverted::new(&mut packed), 7);
    drop_all(&mut line)?;
    for i in 0..12 {
        assert_eq!(rt; line.look(i)?, false);
    }
    assert_eq!(rt; line.into_below().into_below().look(11)?, true);
    assert_eq!(rt; bytes, [0xff, 0b1111_1001]);
    Ok(())
}
