//! Scripts, and the parts that they are put together from.
ghost use Rattle.std.specs.Prelude.{◌≡◌, [], IfOk};

use crate::cost::spelled::Spelled;
use orchestrate::{ScriptAnswer, ScriptWorld};
use run_grammar::Kind::{
    Apply, Body, Choose, Configure, Decide, Deserialize, Endpoint, Initial, Serialize, Sign, Start,
    Stream, Transmit, Wait,
};
use run_grammar::{ConfigureStage, Kind, Role};
use smithy_types::{Choice, List, OutOfMemory};
use std::alloc::Global;

/// A line of a script: an answer, and the kind of question that it is for.
pub type Line = (Kind, Spelled);

/// The settings are asked for, and there are none.
pub const CONFIGURED: &[Line] = &[
    (Configure(ConfigureStage::Client), Spelled::NoSettings),
    (Configure(ConfigureStage::Operation), Spelled::NoSettings),
    (Configure(ConfigureStage::Final), Spelled::NoSettings),
];

/// The input becomes a request with a body in memory, and a first attempt is granted.
pub const GRANTED: &[Line] = &[(Serialize, Spelled::Request("/")), (Initial, Spelled::Go)];

/// An attempt up to the question whether the request is sent.
pub const OPENED: &[Line] = &[
    (Choose, Spelled::Chosen),
    (Endpoint, Spelled::Endpoint("http://localhost:1234")),
    (Apply, Spelled::Request("http://localhost:1234/")),
    (Sign, Spelled::Request("http://localhost:1234/")),
];

/// The service answers with the teapot, and the body is read as the output.
pub const ANSWERED: &[Line] = &[
    (Transmit, Spelled::Response(418, "I'm a teapot!")),
    (Stream, Spelled::NotStreaming),
    (Body, Spelled::Read("I'm a teapot!")),
    (Deserialize, Spelled::Output(1, "I'm a teapot!")),
];

/// The service is unavailable, and the outcome of its response is a connector's failure by Io.
pub const UNAVAILABLE: &[Line] = &[
    (Transmit, Spelled::Response(503, "")),
    (Stream, Spelled::NotStreaming),
    (Body, Spelled::Read("")),
    (Deserialize, Spelled::OutcomeConnector("x")),
];

/// A further attempt is made after a delay of a second, which is over when it is asked.
pub const DELAYED: &[Line] = &[
    (Decide, Spelled::Decided(Choice::Delay(1_000_000_000))),
    (Start(Role::Retry), Spelled::Started),
    (Wait(Role::Retry), Spelled::Ready),
];

/// No further attempt is made.
pub const DECIDED: &[Line] = &[(Decide, Spelled::Decided(Choice::No))];

/// A world that answers by these lines, one part after the other.
pub fn world(alloc: Global, parts: &[&[Line]]) -> Result<ScriptWorld, OutOfMemory>
    ensures { IfOk result (λ w. w.log ≡ []) }
{
    let mut answers = List::new();
    for part in parts {
        push_part(alloc, &mut answers, part)?;
    }
    ScriptWorld::new(alloc, answers)
}

// Adds the lines of one part.
fn push_part(
    alloc: Global,
    answers: &mut List<ScriptAnswer>,
    part: &[Line],
) -> Result<(), OutOfMemory> {
    for (kind, spelled) in part {
        let answer = spelled.answer(alloc)?;
        answers.push(
            alloc,
            ScriptAnswer {
                kind: *kind,
                answer,
            },
        )?;
    }
    Ok(())
}
