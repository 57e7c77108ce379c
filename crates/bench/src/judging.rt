//! The plan, the register and the frames that an input holds.
ghost use Rattle.std.specs.Prelude.{◌≡◌, length, OnOk, IfOk, IfErr};
ghost use Rattle.frames.specs.Frames.{bytes_for};
ghost use Rattle.bench.specs.Spares.{is_set, SparesAreClear, TellsFirstSpare};

use crate::input::Input;
use crate::output::Output;
use crate::stop::Stop;
use faults::{Fault, Refusal, refuse_unless};
use fields::AnyField;
use frames::{bytes_for, look};
use lines::{Line, Packed};
use names::Extension;
use register::Register;
use std::io::{Read, Write};
use words::{Plan, PlanRecord};

/// Judges every frame of an input under the plan and the register at its front.
pub(crate) fn judge_all<R: Read, W: Write>(
    input: &mut Input<R>,
    output: &mut Output<W>,
) -> Result<(), Stop> {
    let (field, plan) = PlanRecord::read(input.take(4)?)?.field_and_plan()?;
    let mut entries = [None; 65536];
    let bits = take_bits(input, plan.cards())?;
    let register = Register::numbered(&mut entries, 0, bits);
    judge_frames(input, output, &register, &field, &plan)
}

/// Takes a bit for each of so many numbers.
fn take_bits<R: Read>(input: &mut Input<R>, numbers: u32) -> Result<&mut [u8], Stop>
    ensures count { IfOk result (λ bits. length bits.now ≡ bytes_for numbers) }
    ensures clear { IfOk result (λ bits. SparesAreClear bits.now numbers) }
{
    let bits = input.take(bytes_for(numbers) as usize)?;
    clear_behind(bits, numbers)?;
    Ok(bits)
}

/// Accepts bits for so many numbers whose spare bits are clear, and refuses others with 16 and the place of the first spare
/// bit that is set.
fn clear_behind(bits: &[u8], numbers: u32) -> Result<(), Fault>
    requires { length bits.now ≡ bytes_for numbers }
    ensures clear { OnOk result (SparesAreClear bits.now numbers) }
    ensures set { IfErr result (TellsFirstSpare bits.now numbers) }
{
    // The last byte has seven spare bits at most.
    for place in numbers..=numbers.saturating_add(6) {
        refuse_unless(!is_set(bits, place), Refusal::Spare, place as u64)?;
    }
    Ok(())
}

/// Whether a bit is set; none behind the last byte is.
fn is_set(bits: &[u8], place: u32) -> bool
    ensures { result ≡ is_set bits.now place }
{
    look(bits, place) == Ok(true)
}

/// Writes the verdict's line for each frame up to the end of the input.
fn judge_frames<R: Read, W: Write>(
    input: &mut Input<R>,
    output: &mut Output<W>,
    register: &Register<'_, Extension>,
    field: &AnyField,
    plan: &Plan,
) -> Result<(), Stop> {
    let slots = plan.slots();
    let size = bytes_for(slots) as usize;
    let mut list = [0u32; 32];
    // Every function has to end and a source need not, so the loop is bounded by more frames than any input has.
    for _ in 0..u64::MAX {
        if input.is_at_end()? {
            break;
        }
        let line = Packed::new(input.take(size)?, slots);
        let count = register.judge_text(field, plan, &line, &mut list, output.room()?)?;
        output.gather(count);
    }
    Ok(())
}
