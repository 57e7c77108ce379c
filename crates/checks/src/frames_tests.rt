//! Bit order, spare bits and distance of packed frames.
use crate::answers::refused;
use faults::Refusal;
use frames::{bytes_for, distance, look, put};
use std::test::Fail;

#[test]
fn a_byte_holds_eight_slots_the_highest_bit_first(rt: HostRuntime) -> Result<(), Fail> {
    let mut frame = [0x80, 0x01];
    assert_eq!(rt; look(&frame, 0), Ok(true));
    assert_eq!(rt; look(&frame, 1), Ok(false));
    assert_eq!(rt; look(&frame, 15), Ok(true));
    assert_eq!(rt; look(&frame, 16), refused(Refusal::Slot, 16));
    put(&mut frame, 9, true)?;
    put(&mut frame, 0, false)?;
    assert_eq!(rt; put(&mut frame, 16, true), refused(Refusal::Slot, 16));
    assert_eq!(rt; frame, [0x00, 0x41]);
    Ok(())
}

#[test]
fn bytes_are_counted_up(rt: HostRuntime) {
    for (slots, bytes) in [
        (0, 0),
        (1, 1),
        (8, 1),
        (9, 2),
        (25, 4),
        (4096, 512),
        (u32::MAX, 536870912),
    ] {
        assert_eq!(rt; bytes_for(slots), bytes);
    }
}

#[test]
fn distance_counts_slots_and_no_spare_bits(rt: HostRuntime) {
    assert_eq!(rt; distance(&[0xFF, 0xFF], &[0x00, 0x7F], 9), Ok(9));
    assert_eq!(rt; distance(&[0xFF, 0xFF], &[0x00, 0x80], 9), Ok(8));
    assert_eq!(rt; distance(&[0xA5, 0x00], &[0x5A, 0xFF], 16), Ok(16));
    assert_eq!(rt; distance(&[], &[], 0), Ok(0));
}

#[test]
fn the_first_frame_of_the_wrong_length_is_refused(rt: HostRuntime) {
    assert_eq!(rt; distance(&[0, 0, 0], &[0], 9), refused(Refusal::Length, 3));
    assert_eq!(rt; distance(&[0, 0], &[0], 9), refused(Refusal::Length, 1));
    assert_eq!(rt; distance(&[0], &[0], 0), refused(Refusal::Length, 1));
    assert_eq!(rt; distance(&[0], &[0], u32::MAX), refused(Refusal::Length, 1));
}
