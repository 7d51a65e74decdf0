//! What holds of every choice of an auth scheme. The function does nothing: its contract is the
//! law.

ghost use Rattle.laws_client.specs.Choices.Noting.{NotesTell};

use auth_endpoint::AuthScheme;
use identity_cell::ResolveIdentity;

/// Each choice has a note: `Uncached` exactly where the client keeps no cache, `Hit` only where the
/// scheme's cell had this identity, unexpired, and `Load` only where the choice completed a load.
pub fn notes_tell<A: AuthScheme, R: ResolveIdentity>()
    ensures { NotesTell A.names R.polls }
{}
