//! How values of the caller's types become payloads.
ghost use Rattle.std.specs.Prelude.{◌≡◌, Bool, true, false, IfOk, IfSome, MatchOption};

use crate::{OutOfMemory, Payload};
use std::alloc::Global;

/// A type whose values an operation carries as payloads. What `to_payload` gives is accepted and
/// reads as the same value, and a payload reads as one value at most.
pub trait Wire {
    ghost use Rattle.std.specs.Prelude.{◌≡◌, Bool, true, false, IfOk, IfSome, MatchOption};
    ghost use Rattle.smithy_types.specs.declared.payload.Payload.{Payload};

    /// Which payloads are values of the type.
    ghost accepts: { Payload → Bool };

    /// The payload reads as the value.
    ghost reads_as: { Payload → Self → Type 0 };

    /// The payload that the value is. It is accepted, and reads as the value.
    fn to_payload(&self, alloc: Global) -> Result<Payload, OutOfMemory>
        ensures accepted { IfOk result (λ p. accepts p ≡ true) }
        ensures same { IfOk result (λ p. reads_as p self.now) };

    /// The value that the payload reads as. None exactly where the payload isn't accepted.
    fn from_payload(alloc: Global, payload: &Payload) -> Result<Option<Self>, OutOfMemory>
    where
        Self: Sized,
        ensures accepted { IfOk result
            (λ r. MatchOption r (accepts payload.now ≡ false) (λ _. accepts payload.now ≡ true)) }
        ensures reads { IfOk result (λ r. IfSome r (λ x. reads_as payload.now x)) };

    /// A payload reads as one value at most.
    ghost one_value: { (p : Payload) (x y : Self) → reads_as p x → reads_as p y → x ≡ y };
}

/// A payload is a value of its own, and each one is accepted.
impl Wire for Payload {
    ghost use Rattle.std.specs.Prelude.{◌≡◌, true};
    ghost use Rattle.std.proofs.Common.{◌∙◌, sym};

    ghost accepts = { λ _. true };

    ghost reads_as = { λ p q. q ≡ p };

    ghost one_value = { λ p x y h g. h ∙ sym g };

    fn to_payload(&self, _alloc: Global) -> Result<Payload, OutOfMemory> {
        Ok(self.clone()?)
    }

    fn from_payload(_alloc: Global, payload: &Payload) -> Result<Option<Payload>, OutOfMemory> {
        Ok(Some(payload.clone()?))
    }
}
