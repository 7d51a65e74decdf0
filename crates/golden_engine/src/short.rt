//! Prints short runs: each way to run an operation, over a world that configures its client and has
//! no part else. Such a run fails at its second configuration, with three questions.

use anyhow::Result;
use orchestrate::{
    Answer, Invocation, InvokeError, Kind, Operation, ScriptAnswer, ScriptWorld, Step, StopPoint,
    World, invoke, invoke_with_stop_point,
};
use run_grammar::ConfigureStage;
use smithy_context::Layer;
use smithy_types::{Blob, List, OutOfMemory, Payload, SdkError, Text};
use std::alloc::Global;

pub fn print(rt: HostRuntime) -> Result<()> {
    print_whole(&rt)?;
    print_cut(&rt)?;
    print_steps(&rt)?;
    print_operation(&rt)
}

// A run with fuel enough.
fn print_whole(rt: &HostRuntime) -> Result<()> {
    let mut world = bare(rt.alloc())?;
    let end = whole(rt.alloc(), &mut world);
    let questions = world.entries().len();
    println!(rt; "a run whose configuration is absent: {end}, {questions} questions")?;
    Ok(())
}

// How a run with fuel enough ends.
fn whole<W: World>(alloc: Global, world: &mut W) -> &'static str {
    end_of(invoke(alloc, "service", "operation", world, input(), 9))
}

// A run to the stop point with two units of fuel.
fn print_cut(rt: &HostRuntime) -> Result<()> {
    let mut world = bare(rt.alloc())?;
    let end = cut(rt.alloc(), &mut world);
    let questions = world.entries().len();
    println!(rt; "the same with two units of fuel: {end}, {questions} questions")?;
    Ok(())
}

// How a run with two units of fuel ends.
fn cut<W: World>(alloc: Global, world: &mut W) -> &'static str {
    let stop = StopPoint::BeforeTransmit;
    let answer = invoke_with_stop_point(alloc, "service", "operation", world, input(), stop, 2);
    let end = match &answer {
        Ok(_) => "stopped",
        Err(error) => cause(error),
    };
    drop(answer);
    end
}

// A run that is driven one question at a time.
fn print_steps(rt: &HostRuntime) -> Result<()> {
    let mut world = bare(rt.alloc())?;
    let mut invocation = Invocation::start(rt.alloc(), input(), StopPoint::None)?;
    for _ in 0..4 {
        let step = taken(rt.alloc(), &mut invocation, &mut world)?;
        println!(rt; "one question at a time: {step}")?;
    }
    let questions = world.entries().len();
    println!(rt; "  {questions} questions")?;
    Ok(())
}

// What driving the run once comes to.
fn taken<W: World>(
    alloc: Global,
    invocation: &mut Invocation,
    world: &mut W,
) -> Result<&'static str, OutOfMemory> {
    match invocation.drive(alloc, world)? {
        Step::Asked => Ok("asked"),
        Step::Ended => Ok("ended"),
    }
}

// An operation over payloads, and the names of its copy.
fn print_operation(rt: &HostRuntime) -> Result<()> {
    let mut world = bare(rt.alloc())?;
    let service = Text::from_static("kitchen");
    let operation: Operation<Payload, Payload, Payload> = Operation::named(
        service,
        Text::from_static("Brew"),
    );
    let end = invoked(rt.alloc(), &operation, &mut world);
    println!(rt; "an operation over payloads: {end}")?;
    let copy = operation.clone()?;
    let service = copy.service_name();
    let name = copy.operation_name();
    println!(rt; "  its copy: {service}, {name}")?;
    Ok(())
}

// How a run of this operation with fuel enough ends.
fn invoked<W: World>(
    alloc: Global,
    operation: &Operation<Payload, Payload, Payload>,
    world: &mut W,
) -> &'static str {
    end_of(operation.invoke(alloc, world, input(), 9))
}

// How a run ended.
fn end_of(answer: Result<Payload, InvokeError<Payload>>) -> &'static str {
    let end = match &answer {
        Ok(_) => "an output",
        Err(error) => cause(error),
    };
    drop(answer);
    end
}

// Why a run has no output.
fn cause(error: &InvokeError<Payload>) -> &'static str {
    match error {
        InvokeError::Sdk(error) => failure(error),
        InvokeError::Unfinished => "unfinished",
        InvokeError::WrongType(_) => "an answer of another type",
        InvokeError::OutOfMemory => "out of memory",
    }
}

// What failed.
fn failure(error: &SdkError<Payload>) -> &'static str {
    match error {
        SdkError::ConstructionFailure(_) => "a construction failure",
        _ => "another failure",
    }
}

// A world that configures its client, and has no part else.
fn bare(alloc: Global) -> Result<ScriptWorld, OutOfMemory> {
    let mut answers = List::new();
    let kind = Kind::Configure(ConfigureStage::Client);
    let answer = Answer::Layer(Layer::new());
    answers.push(alloc, ScriptAnswer { kind, answer })?;
    ScriptWorld::new(alloc, answers)
}

// An input without bytes.
fn input() -> Payload {
    Payload {
        kind: 1,
        bytes: Blob::new(),
    }
}
