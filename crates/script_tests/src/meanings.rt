// What each fault says in plain words.
use script::faults::{Cause, Layer, LineFault, RunFault, ScriptFault};
use std::alloc::Global;
use std::fmt::Display;
use std::test::Fail;

// A test that fails where a value is not printed as this text.
fn says<T: Display>(heap: Global, value: &T, text: &str) -> Result<(), Fail> {
    let said = format!(in heap; "{value}")?;
    if said.as_str() == text {
        Ok(())
    } else {
        Err(Fail::new("a fault says something else"))
    }
}

#[test]
fn layers(rt: HostRuntime) -> Result<(), Fail> {
    let heap = rt.alloc();
    says(heap, &Layer::Line, "line")?;
    says(heap, &Layer::Script, "script")?;
    says(heap, &Layer::Run, "run")
}

// A cause, alone and in the faults around it.
fn cause_says(heap: Global, cause: Cause, text: &str) -> Result<(), Fail> {
    let fault = ScriptFault::InFrame { cause, line: 7 };
    says(heap, &cause, text)?;
    says(heap, &fault, text)?;
    says(heap, &RunFault::from(fault), text)
}

#[test]
fn causes(rt: HostRuntime) -> Result<(), Fail> {
    let heap = rt.alloc();
    for (cause, text) in [
        (
            Cause::Shape,
            "the frame's kind is unknown here, or its length is not the kind's",
        ),
        (
            Cause::Range,
            "a field of the header is outside its range, or a capacity exceeds 2,048 samples or 512 entries in all",
        ),
        (
            Cause::Level,
            "a level is not one of the header's kind of levels",
        ),
        (
            Cause::Order,
            "the frame is out of order, a block is unmatched, a count is wrong, or lines are missing or left over",
        ),
        (
            Cause::Undeclared,
            "a variable, track, channel or lock is not declared",
        ),
        (
            Cause::Expression,
            "an expression has an unknown or cut code, finds its stack empty, holds more than 16 numbers, or does not leave one",
        ),
        (
            Cause::Limit,
            "blocks nest more than 16 deep, there are more than 512 frames, or the input has more than 16,384 bytes",
        ),
    ] {
        cause_says(heap, cause, text)?;
    }
    Ok(())
}

#[test]
fn lines(rt: HostRuntime) -> Result<(), Fail> {
    let heap = rt.alloc();
    let fault = LineFault { line: 7 };
    let text =
        "the line is empty, has an odd number of digits or more than 102, has a byte that is no digit 0-9 or A-F, or does not end in a newline";
    says(heap, &fault, text)?;
    says(heap, &ScriptFault::from(fault), text)?;
    says(heap, &RunFault::from(fault), text)
}

#[test]
fn calls(rt: HostRuntime) -> Result<(), Fail> {
    let heap = rt.alloc();
    says(
        heap,
        &RunFault::NoState,
        "the memory lent is too short, or holds no script",
    )?;
    says(
        heap,
        &RunFault::NoSuch,
        "there is no such track, channel, thread or entry",
    )?;
    says(heap, &RunFault::TrackFull, "the track is full")?;
    says(
        heap,
        &RunFault::OutOfTurns,
        "the last turn that a run may have was given",
    )
}
