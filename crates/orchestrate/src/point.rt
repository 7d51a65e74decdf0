//! Where a run may stand.
ghost use Rattle.std.specs.Prelude.{◌≡◌};
ghost use Rattle.orchestrate.specs.Points.{kind_at};
ghost use Rattle.orchestrate.specs.Driving.{is_in_attempt, is_in_operation};

use run_grammar::{ConfigureStage, Kind, Role};
use smithy_types::Hook;

/// A place in a run: the question that is asked there is next.
#[derive(Clone, Copy, Debug, PartialEq, Eq)]
pub enum Point {
    AtConfigureClient,
    /// A hook, but for the two of an attempt that was cut.
    Hook(Hook),
    AtConfigureOperation,
    AtConfigureFinal,
    AtStartOperationFailed,
    AtStartOperation,
    AtSerialize,
    AtLoad,
    AtInitial,
    AtStartSend,
    AtWaitSend,
    AtStartAttempt,
    AtChoose,
    AtEndpoint,
    AtApply,
    AtSign,
    AtTransmit,
    AtStream,
    AtBody,
    AtDeserialize,
    AtDecide,
    AtStartRetry,
    AtWaitRetry,
    AtStartLongPoll,
    AtWaitLongPoll,
    AtTokenInitial,
    AtTokenStartSend,
    AtTokenWaitSend,
    AtCutModifyBeforeAttemptCompletion,
    AtCutReadAfterAttempt,
}

/// The kind of the question that is asked there.
pub fn kind_at(point: Point) -> Kind
    ensures { result ≡ kind_at point }
{
    match point {
        Point::AtConfigureClient => Kind::Configure(ConfigureStage::Client),
        Point::Hook(hook) => Kind::Hook(hook),
        Point::AtConfigureOperation => Kind::Configure(ConfigureStage::Operation),
        Point::AtConfigureFinal => Kind::Configure(ConfigureStage::Final),
        Point::AtStartOperationFailed => Kind::Start(Role::Operation),
        Point::AtStartOperation => Kind::Start(Role::Operation),
        Point::AtSerialize => Kind::Serialize,
        Point::AtLoad => Kind::Load,
        Point::AtInitial => Kind::Initial,
        Point::AtStartSend => Kind::Start(Role::Send),
        Point::AtWaitSend => Kind::Wait(Role::Send),
        Point::AtStartAttempt => Kind::Start(Role::Attempt),
        Point::AtChoose => Kind::Choose,
        Point::AtEndpoint => Kind::Endpoint,
        Point::AtApply => Kind::Apply,
        Point::AtSign => Kind::Sign,
        Point::AtTransmit => Kind::Transmit,
        Point::AtStream => Kind::Stream,
        Point::AtBody => Kind::Body,
        Point::AtDeserialize => Kind::Deserialize,
        Point::AtDecide => Kind::Decide,
        Point::AtStartRetry => Kind::Start(Role::Retry),
        Point::AtWaitRetry => Kind::Wait(Role::Retry),
        Point::AtStartLongPoll => Kind::Start(Role::LongPoll),
        Point::AtWaitLongPoll => Kind::Wait(Role::LongPoll),
        Point::AtTokenInitial => Kind::Initial,
        Point::AtTokenStartSend => Kind::Start(Role::Send),
        Point::AtTokenWaitSend => Kind::Wait(Role::Send),
        Point::AtCutModifyBeforeAttemptCompletion => Kind::Hook(
            Hook::ModifyBeforeAttemptCompletion,
        ),
        Point::AtCutReadAfterAttempt => Kind::Hook(Hook::ReadAfterAttempt),
    }
}

/// Whether the point lies in an attempt, where its deadline is asked.
pub fn is_in_attempt(point: Point) -> bool
    ensures { result ≡ is_in_attempt point }
{
    match point {
        Point::Hook(hook) => hook.part().is_attempt(),
        Point::AtChoose
        | Point::AtEndpoint
        | Point::AtApply
        | Point::AtSign
        | Point::AtTransmit
        | Point::AtStream
        | Point::AtBody
        | Point::AtDeserialize => true,
        _ => false,
    }
}

/// Whether the point lies where the operation's deadline is asked.
pub fn is_in_operation(point: Point) -> bool
    ensures { result ≡ is_in_operation point }
{
    match point {
        Point::Hook(hook) => hook.part().is_operation(),
        Point::AtConfigureClient
        | Point::AtConfigureOperation
        | Point::AtConfigureFinal
        | Point::AtStartOperationFailed
        | Point::AtStartOperation
        | Point::AtCutModifyBeforeAttemptCompletion
        | Point::AtCutReadAfterAttempt => false,
        _ => true,
    }
}
