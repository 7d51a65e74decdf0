//! Which part of a run a hook may write.
ghost use Rattle.std.specs.Prelude.{◌≡◌};
ghost use Rattle.smithy_context.specs.Hooks.{may_write, allowed, writes_input, writes_request};
ghost use Rattle.smithy_context.specs.Hooks.{writes_response, writes_outcome};

use crate::Change;
use smithy_types::Hook;

/// Whether the hook may write the input.
pub fn writes_input(hook: Hook) -> bool
    ensures { result ≡ writes_input hook }
{
    matches!(hook, Hook::ModifyBeforeSerialization)
}

/// Whether the hook may write the request.
pub fn writes_request(hook: Hook) -> bool
    ensures { result ≡ writes_request hook }
{
    matches!(
        hook,
        Hook::ModifyBeforeRetryLoop | Hook::ModifyBeforeSigning | Hook::ModifyBeforeTransmit
    )
}

/// Whether the hook may write the response.
pub fn writes_response(hook: Hook) -> bool
    ensures { result ≡ writes_response hook }
{
    matches!(hook, Hook::ModifyBeforeDeserialization)
}

/// Whether the hook may write the outcome.
pub fn writes_outcome(hook: Hook) -> bool
    ensures { result ≡ writes_outcome hook }
{
    matches!(
        hook,
        Hook::ModifyBeforeAttemptCompletion | Hook::ModifyBeforeCompletion
    )
}

/// Whether the hook may make this change.
pub fn may_write(hook: Hook, change: &Change) -> bool
    ensures { result ≡ may_write hook change.now }
{
    match change {
        Change::Input(_) => writes_input(hook),
        Change::Request(_) => writes_request(hook),
        Change::Response(_) => writes_response(hook),
        Change::Outcome(_) => writes_outcome(hook),
    }
}

/// The change, where its hook may make it, and none otherwise. It takes no memory.
pub fn allowed(hook: Hook, change: Option<Change>) -> Option<Change>
    ensures { result ≡ allowed hook change }
{
    match change {
        Some(change) => {
            if may_write(hook, &change) {
                Some(change)
            } else {
                None
            }
        }
        None => None,
    }
}
