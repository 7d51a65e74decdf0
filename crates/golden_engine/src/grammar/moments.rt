//! Moments of a run, and what stands at them.
use crate::grammar::forms::{Form, answer, payload};
use run_grammar::{Answer, ConfigureStage, Kind, Role, Standing};
use smithy_types::OutOfMemory;
use std::alloc::Global;

/// Where in a run the rows begin.
#[derive(Clone, Copy, Debug, PartialEq, Eq)]
pub enum Moment {
    /// Nothing was asked.
    AtTheStart,
    /// The settings say that the request's body is loaded.
    ToBeLoaded,
    /// A request stands, and the first attempt was delayed.
    BeforeTheFirstAttempt,
    /// The first attempt failed, under two deadlines.
    AfterTheFirstAttempt,
    /// A further attempt began.
    InALaterAttempt,
    /// An attempt was made whose request can be sent once.
    SentOnce,
}

/// Every moment, once.
pub const MOMENTS: [Moment; 6] = [
    Moment::AtTheStart,
    Moment::ToBeLoaded,
    Moment::BeforeTheFirstAttempt,
    Moment::AfterTheFirstAttempt,
    Moment::InALaterAttempt,
    Moment::SentOnce,
];

const CLIENT: Kind = Kind::Configure(ConfigureStage::Client);

const LOADED: &[(Kind, Form)] = &[(CLIENT, Form::LoadBody)];

const DELAYED: &[(Kind, Form)] = &[
    (CLIENT, Form::Timeouts),
    (Kind::Serialize, Form::Request),
    (Kind::Initial, Form::Delay),
];

const ATTEMPTED: &[(Kind, Form)] = &[
    (CLIENT, Form::Timeouts),
    (Kind::Start(Role::Operation), Form::Started),
    (Kind::Serialize, Form::Request),
    (Kind::Initial, Form::Go),
    (Kind::Start(Role::Attempt), Form::Started),
    (Kind::Choose, Form::ChosenWhole),
    (Kind::Sign, Form::RequestOnce),
    (Kind::Transmit, Form::Response),
    (Kind::Stream, Form::NotStreaming),
    (Kind::Body, Form::Read),
    (Kind::Deserialize, Form::Failure),
];

const AGAIN: &[(Kind, Form)] = &[
    (CLIENT, Form::Timeouts),
    (Kind::Serialize, Form::Request),
    (Kind::Initial, Form::Go),
    (Kind::Deserialize, Form::Failure),
    (Kind::Decide, Form::DecidedDelay),
    (Kind::Start(Role::Retry), Form::Started),
];

const ONCE: &[(Kind, Form)] = &[
    (Kind::Serialize, Form::RequestOnce),
    (Kind::Initial, Form::Go),
    (Kind::Choose, Form::Chosen),
    (Kind::Transmit, Form::ConnectorFailed),
];

// The answers by which a run comes to the moment.
fn way_to(moment: Moment) -> &'static [(Kind, Form)] {
    match moment {
        Moment::AtTheStart => &[],
        Moment::ToBeLoaded => LOADED,
        Moment::BeforeTheFirstAttempt => DELAYED,
        Moment::AfterTheFirstAttempt => ATTEMPTED,
        Moment::InALaterAttempt => AGAIN,
        Moment::SentOnce => ONCE,
    }
}

/// What stands at the moment.
pub fn standing(alloc: Global, moment: Moment) -> Result<Standing, OutOfMemory> {
    let mut standing = Standing::new(alloc, payload(1))?;
    for (kind, form) in way_to(moment) {
        let answer = answer(alloc, *form)?;
        take_in(alloc, &mut standing, *kind, &answer)?;
    }
    Ok(standing)
}

/// Asks a question of the kind, and takes the answer in.
pub fn take_in(
    alloc: Global,
    standing: &mut Standing,
    kind: Kind,
    answer: &Answer,
) -> Result<(), OutOfMemory> {
    let nanos = standing.question(kind)?.nanos();
    standing.take_in(alloc, kind, nanos, answer)
}
