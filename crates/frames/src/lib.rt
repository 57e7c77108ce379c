//! Packed frames: rows of slots carried in bytes.
//!
//! Slot s is bit 7 - (s mod 8) of byte s div 8. Spare bits of the last byte are neither read nor altered.
#![tactic(auto)]

ghost use Rattle.std.specs.Prelude.{◌≡◌, ◌-◌, ◌*◌, ◌/◌, ◌%◌, ◌^◌, ◌<◌, length, Ok};
ghost use Rattle.frames.specs.Frames.{bit_set, stands, with_bit, with_slot, slot_answer, bits_apart, bytes_for, length_answer, frame_distance, distance_answer};

use faults::{Fault, Refusal, refuse_unless};

/// How many bytes so many slots need.
pub fn bytes_for(slots: u32) -> u32
    ensures { result ≡ bytes_for slots }
{
    slots.div_ceil(8)
}

/// Whether a slot stands. A slot past the last byte is refused with 7 and the slot.
pub fn look(frame: &[u8], slot: u32) -> Result<bool, Fault>
    ensures { result ≡ slot_answer (8 * length frame.now) slot (stands frame.now slot) }
{
    reaches(frame, slot)?;
    let (byte, bit) = place_of(slot);
    Ok(bit_set(frame[byte], bit))
}

/// Makes a slot stand or be clear, and alters no other bit. A slot past the last byte is refused with 7 and the slot.
pub fn put(frame: &mut [u8], slot: u32, standing: bool) -> Result<(), Fault>
    ensures answer { result ≡ slot_answer (8 * length frame.old) slot tt }
    ensures after { frame.new ≡ with_slot frame.old slot standing }
{
    reaches(frame, slot)?;
    let (byte, bit) = place_of(slot);
    frame[byte] = with_bit(frame[byte], bit, standing);
    Ok(())
}

/// Accepts a slot that a frame reaches. A slot past the last byte is refused with 7 and the slot.
fn reaches(frame: &[u8], slot: u32) -> Result<(), Fault>
    ensures { result ≡ slot_answer (8 * length frame.now) slot tt }
{
    let (byte, _) = place_of(slot);
    refuse_unless(byte < frame.len(), Refusal::Slot, slot as u64)
}

/// The byte of a slot and the slot's bit in it.
// A check that answers with them was tried: a look at a slot took four instructions more.
fn place_of(slot: u32) -> (usize, u32)
    ensures { result ≡ (slot / 8, 7 - slot % 8) }
{
    ((slot / 8) as usize, 7 - slot % 8)
}

/// Whether one bit of a byte is set.
fn bit_set(byte: u8, bit: u32) -> bool
    requires { bit < 8 }
    ensures { result ≡ bit_set byte bit }
{
    byte >> bit & 1 == 1
}

/// A byte with one bit set or cleared.
#[tactic(auto, using(crate::proofs::Bytes::bit_raised, crate::proofs::Bytes::bit_cleared))]
fn with_bit(byte: u8, bit: u32, standing: bool) -> u8
    requires { bit < 8 }
    ensures { result ≡ with_bit byte bit standing }
{
    let mask = 1 << bit;
    if standing { byte | mask } else { byte & !mask }
}

/// The number of slots, of the first so many, in which two frames differ. A frame that has not exactly as many bytes
/// as the slots need is refused with 5 and its length, the first frame first.
pub fn distance(a: &[u8], b: &[u8], slots: u32) -> Result<u32, Fault>
    ensures { result ≡ distance_answer a.now b.now slots }
{
    fits(a, slots)?;
    fits(b, slots)?;
    Ok(differing(a, b, slots))
}

/// The number of slots, of the first so many, in which two frames differ: whole bytes first, then the slots of the last.
#[tactic(auto, using(crate::proofs::Bytes::distance_whole, crate::proofs::Bytes::distance_rest, crate::proofs::Bytes::distance_le))]
fn differing(a: &[u8], b: &[u8], slots: u32) -> u32
    requires first { length a.now ≡ bytes_for slots }
    requires second { length b.now ≡ bytes_for slots }
    ensures { result ≡ frame_distance a.now b.now slots }
{
    let whole = (slots / 8) as usize;
    let in_whole = bits_apart(&a[..whole], &b[..whole]);
    let rest = slots % 8;
    if rest == 0 {
        return in_whole;
    }
    in_whole + ((a[whole] ^ b[whole]) >> (8 - rest)).count_ones()
}

/// The number of bits in which the bytes of two rows differ, place by place.
fn bits_apart(a: &[u8], b: &[u8]) -> u32
    requires { bits_apart a.now b.now < 2 ^ 32 }
    ensures { result ≡ bits_apart a.now b.now }
{
    a.iter().zip(b).map(|(x, y)| (x ^ y).count_ones()).sum()
}

/// Accepts a frame of exactly as many bytes as the slots need; any other is refused with 5 and its length.
pub fn fits(frame: &[u8], slots: u32) -> Result<(), Fault>
    ensures { result ≡ length_answer slots frame.now (Ok tt) }
{
    refuse_unless(
        frame.len() == bytes_for(slots) as usize,
        Refusal::Length,
        frame.len() as u64,
    )
}
