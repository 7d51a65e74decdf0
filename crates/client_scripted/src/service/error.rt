//! The service's own error.
ghost use Rattle.std.specs.Prelude.{◌≡◌};
ghost use Rattle.client_scripted.specs.Service.Service.{kind_of_error};

use smithy_types::{ErrorKind, OutOfMemory, Payload, ProvideErrorKind, Wire};
use std::alloc::Global;

/// An error of the service: any payload. Its bytes say what kind of error it is.
#[derive(Debug, Drop)]
pub struct ServiceError {
    /// What the service answered.
    pub payload: Payload,
}

impl Wire for ServiceError {
    ghost use Rattle.std.specs.Prelude.{◌≡◌, true};
    ghost use Rattle.std.proofs.Common.{◌∙◌, sym};

    ghost accepts = { λ _. true };

    ghost reads_as = { λ p error. error ≡ record { payload = p } };

    ghost one_value = { λ p x y h g. h ∙ sym g };

    fn to_payload(&self, _alloc: Global) -> Result<Payload, OutOfMemory> {
        Ok(self.payload.clone()?)
    }

    fn from_payload(
        _alloc: Global,
        payload: &Payload,
    ) -> Result<Option<ServiceError>, OutOfMemory> {
        Ok(Some(ServiceError {
            payload: payload.clone()?,
        }))
    }
}

impl ProvideErrorKind for ServiceError {
    ghost use Rattle.client_scripted.specs.Service.Service.{kind_of_error};

    ghost kind = { λ error. kind_of_error error.payload.bytes };

    ghost kind_in = { λ p. kind_of_error p.bytes };

    fn retryable_error_kind(&self) -> Option<ErrorKind> {
        kind_of_error(self.payload.bytes.as_slice())
    }

    fn kind_of(payload: &Payload) -> Option<ErrorKind> {
        kind_of_error(payload.bytes.as_slice())
    }
}

// The kind that an error's bytes name.
fn kind_of_error(bytes: &[u8]) -> Option<ErrorKind>
    ensures { result ≡ kind_of_error bytes.now }
{
    if bytes == b"throttle".as_slice() {
        Some(ErrorKind::ThrottlingError)
    } else if bytes == b"transient".as_slice() {
        Some(ErrorKind::TransientError)
    } else if bytes == b"server".as_slice() {
        Some(ErrorKind::ServerError)
    } else {
        None
    }
}
