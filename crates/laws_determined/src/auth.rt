//! What a client does between input and signature is determined, over outsides whose answers follow
//! from what they were. The functions do nothing: their contracts are the laws. Want of memory is
//! no answer.

ghost use Rattle.laws_determined.specs.Auth.Choosing.{ChoicesAreDetermined};
ghost use Rattle.laws_determined.specs.Auth.Signing.{AppliesAreDetermined, SignsAreDetermined};
ghost use Rattle.laws_determined.specs.Steady.Steady.{IsSteady};

use auth_endpoint::AuthScheme;
use identity_cell::ResolveIdentity;
use outside::Outside;

/// Two states of a client's identities that are alike choose with the same answer over the same
/// outside, which has sleeps, and all that is left is alike.
pub fn choices_are_determined<X: Outside, A: AuthScheme, R: ResolveIdentity>()
    ensures { IsSteady X.makes → ChoicesAreDetermined X.makes A.names R.polls }
{}

/// An endpoint is put into a request in one way, or refused with one text.
pub fn applies_are_determined()
    ensures { AppliesAreDetermined }
{}

/// A request is signed in one way, where each scheme signs it in one way.
pub fn signs_are_determined<A: AuthScheme>()
    ensures { SignsAreDetermined A.names A.signs }
{}
