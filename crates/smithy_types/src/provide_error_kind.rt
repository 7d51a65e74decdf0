//! What kind of error a value of the caller's is.
ghost use Rattle.std.specs.Prelude.{◌≡◌, true, false, None};

use crate::{ErrorKind, Payload, Wire};

/// A caller's error that knows what a retry would have to do with.
pub trait ProvideErrorKind: Wire {
    ghost use Rattle.std.specs.Prelude.{◌≡◌, Option, None, true, false};
    ghost use Rattle.smithy_types.specs.declared.kinds.ErrorKind.{ErrorKind};
    ghost use Rattle.smithy_types.specs.declared.payload.Payload.{Payload};

    /// The kind of an error. None where the error tells nothing of a retry.
    ghost kind: { Self → Option ErrorKind };

    /// The kind of the error that a payload reads as. None also where the payload isn't accepted.
    ghost kind_in: { Payload → Option ErrorKind };

    /// The kind of this error. None where it tells nothing of a retry.
    fn retryable_error_kind(&self) -> Option<ErrorKind>
        ensures { result ≡ kind self.now };

    /// The kind of the error that the payload reads as. None also where the payload isn't
    /// accepted. It takes no memory.
    fn kind_of(payload: &Payload) -> Option<ErrorKind>
    where
        Self: Sized,
        ensures value { result ≡ kind_in payload.now }
        ensures accepted { Self.accepts payload.now ≡ true → (error : Self)
            × Self.reads_as payload.now error × (result ≡ kind error) }
        ensures refused { Self.accepts payload.now ≡ false → result ≡ None };
}
