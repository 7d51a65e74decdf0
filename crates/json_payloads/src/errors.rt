//! Errors of a service's model: each is told by the status of its response, and a message may stand
//! in the body.

use crate::{message_payload, read_message};
use smithy_types::{ErrorKind, OutOfMemory, Payload, ProvideErrorKind, Text, Wire};
use std::alloc::Global;
use std::error::Error;
use std::fmt;

/// The errors of a service's model, each with the status of its responses.
pub trait ModeledError {
    ghost use Rattle.std.specs.Prelude.{◌≡◌, ℕ, Option, Some};
    ghost use Rattle.smithy_types.specs.declared.kinds.ErrorKind.{ErrorKind};

    /// The status of its responses.
    ghost status: { Self → ℕ };

    /// The error whose responses have this status.
    ghost of_status: { ℕ → Option Self };

    /// What the error tells of a retry.
    ghost retry: { Self → Option ErrorKind };

    /// The status of its responses, which is the kind of its payloads.
    fn status(&self) -> u32
        ensures { result ≡ status self.now };

    /// The error whose responses have this status.
    fn of_status(code: u32) -> Option<Self>
    where
        Self: Sized,
        ensures { result ≡ of_status code };

    /// What the error tells of a retry, `None` where it tells nothing.
    fn retry(&self) -> Option<ErrorKind>
        ensures { result ≡ retry self.now };

    /// No two errors have one status.
    ghost statuses_differ: { (error : Self) → of_status (status error) ≡ Some error };
}

/// An error of a service, with the message that came with it. Its payload is told by the status
/// alone, so a body that isn't JSON, as the HTML of a gateway, is an error without a message.
#[derive(Debug, Drop)]
pub struct ServiceError<E> {
    /// Which error it is.
    pub error: E,
    /// What the service says of it.
    pub message: Option<Text>,
}

impl<E: fmt::Display> fmt::Display for ServiceError<E> {
    fn fmt<W: fmt::Write>(&self, f: &mut fmt::Formatter<W>) -> fmt::Result {
        write!(f, "{}", self.error)
    }
}

impl<E: Error> Error for ServiceError<E> {}

impl<E: ModeledError + Drop> Wire for ServiceError<E> {
    ghost use Rattle.std.specs.Prelude.{◌≡◌, Some, is_some};
    ghost use Rattle.json_payloads.specs.Errors.{error_in, one_error};

    ghost accepts = { λ p. is_some (error_in E.of_status p) };

    ghost reads_as = { λ p error. error_in E.of_status p ≡ Some error };

    ghost one_value = { one_error E.of_status };

    fn to_payload(&self, alloc: Global) -> Result<Payload, OutOfMemory> {
        let payload = message_payload(alloc, self.error.status(), &self.message)?;
        Ok(payload)
    }

    fn from_payload(
        alloc: Global,
        payload: &Payload,
    ) -> Result<Option<ServiceError<E>>, OutOfMemory> {
        match E::of_status(payload.kind) {
            Some(error) => {
                let message = read_message(alloc, payload)?;
                Ok(Some(ServiceError { error, message }))
            }
            None => Ok(None),
        }
    }
}

impl<E: ModeledError + Drop> ProvideErrorKind for ServiceError<E> {
    ghost use Rattle.json_payloads.specs.Errors.{retry_in};

    ghost kind = { λ error. E.retry error.error };

    ghost kind_in = { retry_in E.of_status E.retry };

    fn retryable_error_kind(&self) -> Option<ErrorKind> {
        self.error.retry()
    }

    fn kind_of(payload: &Payload) -> Option<ErrorKind> {
        match E::of_status(payload.kind) {
            Some(error) => error.retry(),
            None => None,
        }
    }
}
