//! Operations over the caller's own types.
ghost use Rattle.std.specs.Prelude.{◌≡◌};
ghost use Rattle.orchestrate.specs.Growth.{GrewByAtMost};
ghost use Rattle.orchestrate.specs.Handing.{HadMemory, HandedOn};
ghost use Rattle.orchestrate.specs.Answered.{ErrorRead, InputAnswered, OutputRead, SdkErrorRead};

use crate::execution::{InvokeError, invoke};
use crate::world::World;
use smithy_types::{Payload, SdkError, Text, Wire};
use std::alloc::{AllocError, Global};
use std::marker::PhantomData;

/// An operation with input `I`, output `O` and modelled error `E`.
pub struct Operation<I, O, E> {
    service_name: Text,
    operation_name: Text,
    types: PhantomData<(I, O, E)>,
}

// Written out, so that a drop is one call wherever an operation is dropped.
impl<I, O, E> Drop for Operation<I, O, E> {
    fn drop(self) {
        let Operation {
            service_name: _,
            operation_name: _,
            types: _,
        } = self;
    }
}

impl<I: Wire + Drop, O: Wire + Drop, E: Wire + Drop> Operation<I, O, E> {
    /// An operation for a world that the caller brings. It takes no memory.
    pub fn named(service_name: Text, operation_name: Text) -> Operation<I, O, E>
        ensures service_name { result.service_name ≡ service_name }
        ensures operation_name { result.operation_name ≡ operation_name }
    {
        Operation {
            service_name,
            operation_name,
            types: PhantomData,
        }
    }

    /// The service's name.
    pub fn service_name(&self) -> &str
        ensures { result.now ≡ self.now.service_name }
    {
        self.service_name.as_str()
    }

    /// The operation's name.
    pub fn operation_name(&self) -> &str
        ensures { result.now ≡ self.now.operation_name }
    {
        self.operation_name.as_str()
    }

    /// Runs the operation. At most `fuel` questions are asked of the world.
    pub fn invoke<W: World>(
        &self,
        alloc: Global,
        world: &mut W,
        input: I,
        fuel: u64,
    ) -> Result<O, InvokeError<E>>
        ensures grown { GrewByAtMost fuel (W.calls world.old) (W.calls world.new) }
        ensures answered { InputAnswered I.accepts I.reads_as O.accepts O.reads_as E.accepts
            E.reads_as input fuel result (W.calls world.old) (W.calls world.new) }
        ensures related { HadMemory result →
            HandedOn W.relates world.old world.new (W.calls world.old) (W.calls world.new) }
    {
        let payload = input.to_payload(alloc)?;
        let answer = invoke(
            alloc,
            self.service_name.as_str(),
            self.operation_name.as_str(),
            world,
            payload,
            fuel,
        );
        match answer {
            Ok(output) => read_output(alloc, output),
            Err(error) => Err(read_error(alloc, error)),
        }
    }
}

impl<I, O, E> Clone for Operation<I, O, E> {
    ghost use Rattle.std.specs.Prelude.{◌≡◌};

    ghost is_clone = { λ operation copy. copy ≡ operation };

    fn clone(&self) -> Result<Operation<I, O, E>, AllocError> {
        Ok(Operation {
            service_name: self.service_name.clone()?,
            operation_name: self.operation_name.clone()?,
            types: PhantomData,
        })
    }
}

// The output as the caller's type.
fn read_output<O: Wire, E>(alloc: Global, output: Payload) -> Result<O, InvokeError<E>>
    ensures { OutputRead O.accepts O.reads_as output result }
{
    match O::from_payload(alloc, &output)? {
        Some(value) => Ok(value),
        None => Err(InvokeError::WrongType(output)),
    }
}

// The error with the service's error as the caller's type.
fn read_error<E: Wire>(alloc: Global, error: InvokeError<Payload>) -> InvokeError<E>
    ensures { ErrorRead E.accepts E.reads_as error result }
{
    match error {
        InvokeError::Sdk(error) => read_sdk_error(alloc, error),
        InvokeError::Unfinished => InvokeError::Unfinished,
        InvokeError::WrongType(payload) => InvokeError::WrongType(payload),
        InvokeError::OutOfMemory => InvokeError::OutOfMemory,
    }
}

fn read_sdk_error<E: Wire>(alloc: Global, error: SdkError<Payload>) -> InvokeError<E>
    ensures { SdkErrorRead E.accepts E.reads_as error result }
{
    match error {
        SdkError::ConstructionFailure(fault) => {
            InvokeError::Sdk(SdkError::ConstructionFailure(fault))
        }
        SdkError::TimeoutError(fault) => InvokeError::Sdk(SdkError::TimeoutError(fault)),
        SdkError::DispatchFailure(fault) => InvokeError::Sdk(SdkError::DispatchFailure(fault)),
        SdkError::ResponseError(fault, response) => {
            InvokeError::Sdk(SdkError::ResponseError(fault, response))
        }
        SdkError::ServiceError(payload, response) => match E::from_payload(alloc, &payload) {
            Ok(Some(error)) => InvokeError::Sdk(SdkError::ServiceError(error, response)),
            Ok(None) => InvokeError::WrongType(payload),
            Err(error) => InvokeError::from(error),
        },
    }
}
