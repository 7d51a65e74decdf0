//! An invocation as the poll of a waiter.
ghost use Rattle.std.specs.Prelude.{◌≡◌};
ghost use Rattle.client_operations.specs.Polling.{told};
ghost use Rattle.smithy_types.specs.declared.fault.FaultKind.TheVariants.{Other};
ghost use Rattle.smithy_types.specs.declared.fault.SdkError.TheVariants.{DispatchFailure};

use orchestrate::InvokeError;
use smithy_types::{Fault, FaultKind, OutOfMemory, SdkError, Text};

/// An invocation's answer as that of a waiter's poll. What isn't an `SdkError` is told as a failed
/// dispatch, and want of memory as it is.
pub fn polled<O, E>(
    answer: Result<O, InvokeError<E>>,
) -> Result<Option<Result<O, SdkError<E>>>, OutOfMemory>
    ensures { result ≡ told answer }
{
    match answer {
        Ok(output) => Ok(Some(Ok(output))),
        Err(InvokeError::Sdk(error)) => Ok(Some(Err(error))),
        Err(InvokeError::Unfinished) => Ok(Some(Err(other("the fuel is used up")))),
        Err(InvokeError::WrongType(_)) => Ok(Some(Err(other("an answer of another kind")))),
        Err(InvokeError::OutOfMemory) => Err(OutOfMemory),
    }
}

// A failure that has nothing to do with the service, told as one of dispatch.
fn other<E>(text: &'static str) -> SdkError<E>
    ensures { result ≡ DispatchFailure (record { kind = Other; text = text.now }) }
{
    SdkError::DispatchFailure(Fault {
        kind: FaultKind::Other,
        text: Text::from_static(text),
    })
}
