//! The names of what acceptors say.
ghost use Rattle.std.specs.Prelude.{◌≡◌};
ghost use Rattle.json_forms.specs.Forms.{named};
ghost use Rattle.cli_wait.specs.States.{acceptor_states, state_text};

use smithy_types::AcceptorState;

/// What acceptors say that is named so.
pub fn state_named(text: &str) -> Option<AcceptorState>
    ensures { result ≡ named state_text acceptor_states text.now }
{
    if text == "NoAcceptorsMatched" {
        Some(AcceptorState::NoAcceptorsMatched)
    } else if text == "Success" {
        Some(AcceptorState::Success)
    } else if text == "Failure" {
        Some(AcceptorState::Failure)
    } else if text == "Retry" {
        Some(AcceptorState::Retry)
    } else {
        None
    }
}
