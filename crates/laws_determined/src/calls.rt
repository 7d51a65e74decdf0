//! What a client does at its connector is determined, over outsides whose answers follow from what
//! they were. The functions do nothing: their contracts are the laws. Want of memory is no answer.

ghost use Rattle.laws_determined.specs.Calls.Asking.{BodiesAreDetermined, TransmitsAreDetermined};
ghost use Rattle.laws_determined.specs.Steady.Steady.{IsSteady};

use outside::Outside;

/// Two calls that are alike are asked for their response with the same answer over the same
/// outside, and all that is left is alike.
pub fn transmits_are_determined<X: Outside>()
    ensures { IsSteady X.makes → TransmitsAreDetermined X.makes }
{}

/// So they are asked for their body.
pub fn bodies_are_determined<X: Outside>()
    ensures { IsSteady X.makes → BodiesAreDetermined X.makes }
{}
