//! The exchange maker's bench: says of each frame that a line carried what a register of cards answers.
//!
//! Standard input is bytes: a plan record of 4; then a bit for each number that has a word, number 0 first and the
//! highest bit of a byte first, which is set where the number is enrolled under the extension number equal to it; then
//! packed frames to the end. The program writes the verdict's line for each frame. Where the record, the bits or a frame
//! are refused, or the input ends inside one of them, it writes the letter E and the refusal's number, and stops.
#![tactic(auto)]

mod buffer;
mod input;
mod judging;
mod output;
mod stop;

use input::Input;
use judging::judge_all;
use output::Output;
use stop::Stop;

/// Runs the bench, and reports an input or an output that fails.
fn main(rt: HostRuntime) -> anyhow::Result<()> {
    run(&rt)
}

/// Judges the frames of the standard input.
fn run(rt: &HostRuntime) -> anyhow::Result<()> {
    let mut output = Output::new(rt.stdout());
    let outcome = judge_all(&mut Input::new(rt.stdin()), &mut output);
    output.flush()?;
    match outcome {
        Err(Stop::Refused(fault)) => println!(rt; "E {}", fault.refusal.number())?,
        other => other?,
    }
    Ok(())
}
