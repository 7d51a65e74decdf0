//! An error of a service's model.
ghost use Rattle.std.specs.Prelude.{◌≡◌};

use smithy_types::{Blob, ErrorKind, OutOfMemory, Payload, ProvideErrorKind, Wire};
use std::alloc::Global;

/// An error that says that the request was at fault. Its payloads are those of kind 4.
#[derive(Drop)]
pub struct NotServed;

impl Wire for NotServed {
    ghost use Rattle.std.specs.Prelude.{◌≡◌, ◌==◌};
    ghost use Rattle.std.proofs.Common.{refl};

    ghost accepts = { λ p. p.kind == 4 };

    ghost reads_as = { λ p _. p.kind ≡ 4 };

    ghost one_value = { λ p x y h g. refl };

    fn to_payload(&self, _alloc: Global) -> Result<Payload, OutOfMemory> {
        Ok(payload(4))
    }

    fn from_payload(_alloc: Global, payload: &Payload) -> Result<Option<NotServed>, OutOfMemory> {
        if payload.kind != 4 {
            return Ok(None);
        }
        Ok(Some(NotServed))
    }
}

impl ProvideErrorKind for NotServed {
    ghost use Rattle.std.specs.Prelude.{◌==◌, if◌then◌else◌, None, Some};
    ghost use Rattle.smithy_types.specs.declared.kinds.ErrorKind.TheVariants.{ClientError};

    ghost kind = { λ _. Some ClientError };

    ghost kind_in = { λ p. if p.kind == 4 then Some ClientError else None };

    fn retryable_error_kind(&self) -> Option<ErrorKind> {
        Some(ErrorKind::ClientError)
    }

    fn kind_of(payload: &Payload) -> Option<ErrorKind> {
        if payload.kind == 4 {
            Some(ErrorKind::ClientError)
        } else {
            None
        }
    }
}

/// An empty payload of this kind.
pub fn payload(kind: u32) -> Payload
    ensures { result.kind ≡ kind }
{
    Payload {
        kind,
        bytes: Blob::new(),
    }
}
