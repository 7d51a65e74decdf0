//! The way through a run: which question comes next.
ghost use Rattle.std.specs.Prelude.{◌≡◌, cond};
ghost use Rattle.run_grammar.specs.Standing.{State};
ghost use Rattle.run_grammar.specs.Tests.{failed};
ghost use Rattle.orchestrate.specs.Points.{here, ended, settling_at, finishing_at, begin_turn};
ghost use Rattle.orchestrate.specs.Points.{go_again, after_opened, next_point};
ghost use Rattle.orchestrate.specs.Replies.{Tells};

use crate::point::Point;
use crate::reply::Reply;
use crate::stage::{Armed, Place};
use run_grammar::{Role, Standing, StopPoint};
use smithy_types::Hook;

/// Where the run goes on after an answer that isn't Pending; `standing` is what stands after it.
/// The rows are in the order in which a run without a retry comes to them, but for the hooks.
pub fn next_point(
    stop: StopPoint,
    armed: Armed,
    point: Point,
    reply: Reply,
    standing: &Standing,
) -> Place
    ensures { (s : State) → s.context ≡ standing.now → Tells s reply →
        result ≡ next_point stop armed point s }
{
    match point {
        Point::AtConfigureClient => or_end(
            armed,
            reply,
            Point::Hook(Hook::ReadBeforeExecutionClient),
        ),
        Point::Hook(hook) => after_hook(stop, armed, hook, reply),
        Point::AtConfigureOperation => or_end(
            armed,
            reply,
            Point::Hook(Hook::ReadBeforeExecutionOperation),
        ),
        Point::AtConfigureFinal => after_configuration(armed, reply, standing),
        Point::AtStartOperationFailed => here(armed, Point::Hook(Hook::ModifyBeforeCompletion)),
        Point::AtStartOperation => after_start_operation(reply),
        Point::AtSerialize => after_serialize(armed, reply, standing),
        Point::AtLoad => or_finish(armed, reply, Point::Hook(Hook::ReadAfterSerialization)),
        Point::AtInitial => after_initial(armed, reply, standing),
        Point::AtStartSend => after_start_send(armed, reply),
        Point::AtWaitSend => here(armed, Point::AtInitial),
        Point::AtStartAttempt => after_start_attempt(armed, reply),
        Point::AtChoose => after_choose(armed, reply, standing),
        Point::AtEndpoint => or_settle(armed, reply, Point::AtApply),
        Point::AtApply => or_settle(armed, reply, Point::Hook(Hook::ModifyBeforeSigning)),
        Point::AtSign => or_settle(armed, reply, Point::Hook(Hook::ReadAfterSigning)),
        Point::AtTransmit => or_settle(armed, reply, Point::Hook(Hook::ReadAfterTransmit)),
        Point::AtStream => after_stream(armed, reply),
        Point::AtBody => after_body(armed, reply),
        Point::AtDeserialize => here(armed, Point::Hook(Hook::ReadAfterDeserialization)),
        Point::AtDecide => after_decision(armed, reply, standing),
        Point::AtStartRetry => after_start_retry(armed, reply, standing),
        Point::AtWaitRetry => go_again(armed, standing),
        Point::AtStartLongPoll => after_start_long_poll(armed, reply),
        Point::AtWaitLongPoll => here(armed, Point::Hook(Hook::ModifyBeforeCompletion)),
        Point::AtTokenInitial => after_token(armed, reply, standing),
        Point::AtTokenStartSend => after_token_start_send(armed, reply),
        Point::AtTokenWaitSend => here(armed, Point::AtTokenInitial),
        Point::AtCutModifyBeforeAttemptCompletion => here(armed, Point::AtCutReadAfterAttempt),
        Point::AtCutReadAfterAttempt => here(armed, Point::Hook(Hook::ModifyBeforeCompletion)),
    }
}

// Where the run goes on after a hook, in the order in which a run without a retry comes to them.
fn after_hook(stop: StopPoint, armed: Armed, hook: Hook, reply: Reply) -> Place
    ensures { (s : State) → Tells s reply → result ≡ next_point stop armed (Point.Hook hook) s }
{
    match hook {
        Hook::ReadBeforeExecutionClient => here(armed, Point::AtConfigureOperation),
        Hook::ReadBeforeExecutionOperation => here(armed, Point::AtConfigureFinal),
        Hook::ModifyBeforeSerialization => or_finish(
            armed,
            reply,
            Point::Hook(Hook::ReadBeforeSerialization),
        ),
        Hook::ReadBeforeSerialization => or_finish(armed, reply, Point::AtSerialize),
        Hook::ReadAfterSerialization => or_finish(
            armed,
            reply,
            Point::Hook(Hook::ModifyBeforeRetryLoop),
        ),
        Hook::ModifyBeforeRetryLoop => or_finish(armed, reply, Point::AtInitial),
        Hook::ReadBeforeAttempt => or_settle(armed, reply, Point::AtChoose),
        Hook::ModifyBeforeSigning => or_settle(armed, reply, Point::Hook(Hook::ReadBeforeSigning)),
        Hook::ReadBeforeSigning => or_settle(armed, reply, Point::AtSign),
        Hook::ReadAfterSigning => or_settle(armed, reply, Point::Hook(Hook::ModifyBeforeTransmit)),
        Hook::ModifyBeforeTransmit => or_settle(
            armed,
            reply,
            Point::Hook(Hook::ReadBeforeTransmit),
        ),
        Hook::ReadBeforeTransmit => after_opening(stop, armed, reply),
        Hook::ReadAfterTransmit => or_settle(
            armed,
            reply,
            Point::Hook(Hook::ModifyBeforeDeserialization),
        ),
        Hook::ModifyBeforeDeserialization => or_settle(
            armed,
            reply,
            Point::Hook(Hook::ReadBeforeDeserialization),
        ),
        Hook::ReadBeforeDeserialization => or_settle(armed, reply, Point::AtStream),
        Hook::ReadAfterDeserialization => here(
            armed,
            Point::Hook(Hook::ModifyBeforeAttemptCompletion),
        ),
        Hook::ModifyBeforeAttemptCompletion => here(armed, Point::Hook(Hook::ReadAfterAttempt)),
        Hook::ReadAfterAttempt => here(armed, Point::AtDecide),
        Hook::ModifyBeforeCompletion => here(armed, Point::Hook(Hook::ReadAfterExecution)),
        Hook::ReadAfterExecution => Place { armed, point: None },
    }
}

#[tactic(auto, unfolding(run_grammar::specs::Tests::failure_stands, run_grammar::specs::Tests::timeout_stands))]
fn after_configuration(armed: Armed, reply: Reply, standing: &Standing) -> Place
    ensures { (stop : StopPoint) (s : State) → s.context ≡ standing.now → Tells s reply →
        result ≡ next_point stop armed Point.AtConfigureFinal s }
{
    if reply.failed {
        return Place { armed, point: None };
    }
    let has_deadline = standing.nanos_for(Role::Operation).is_some();
    if standing.context.is_failed() {
        if has_deadline {
            here(armed, Point::AtStartOperationFailed)
        } else {
            here(armed, Point::Hook(Hook::ModifyBeforeCompletion))
        }
    } else if has_deadline {
        here(armed, Point::AtStartOperation)
    } else {
        here(
            Armed {
                operation: false,
                attempt: false,
            },
            Point::Hook(Hook::ModifyBeforeSerialization),
        )
    }
}

fn after_initial(armed: Armed, reply: Reply, standing: &Standing) -> Place
    ensures { (stop : StopPoint) (s : State) → s.context ≡ standing.now → Tells s reply →
        result ≡ next_point stop armed Point.AtInitial s }
{
    if reply.delayed {
        here(armed, Point::AtStartSend)
    } else if reply.granted {
        begin_turn(armed, standing)
    } else {
        here(armed, Point::Hook(Hook::ModifyBeforeCompletion))
    }
}

fn after_opening(stop: StopPoint, armed: Armed, reply: Reply) -> Place
    ensures { (s : State) → Tells s reply → result ≡ after_opened stop s armed }
{
    match stop {
        StopPoint::None => or_settle(armed, reply, Point::AtTransmit),
        StopPoint::BeforeTransmit => here(armed, Point::Hook(Hook::ModifyBeforeAttemptCompletion)),
    }
}

#[tactic(auto, unfolding(run_grammar::specs::Tests::checkpoint_stands))]
fn after_decision(armed: Armed, reply: Reply, standing: &Standing) -> Place
    ensures { (stop : StopPoint) (s : State) → s.context ≡ standing.now → Tells s reply →
        result ≡ next_point stop armed Point.AtDecide s }
{
    if reply.again {
        if standing.context.checkpoint.is_some() {
            go_again(armed, standing)
        } else {
            here(armed, Point::Hook(Hook::ModifyBeforeCompletion))
        }
    } else if reply.pauses {
        here(armed, Point::AtStartLongPoll)
    } else if reply.again_later {
        here(armed, Point::AtStartRetry)
    } else {
        here(armed, Point::Hook(Hook::ModifyBeforeCompletion))
    }
}

/// A place at this point.
pub fn here(armed: Armed, point: Point) -> Place
    ensures { result ≡ here armed point }
{
    Place {
        armed,
        point: Some(point),
    }
}

// The next point of a configuration, which a failure ends.
fn or_end(armed: Armed, reply: Reply, next: Point) -> Place
    ensures { (s : State) → Tells s reply →
        result ≡ cond (failed s) (ended armed) (here armed next) }
{
    if reply.failed {
        Place { armed, point: None }
    } else {
        here(armed, next)
    }
}

// The next point of a halted sequence, whose failure leads to the finalizers.
fn or_finish(armed: Armed, reply: Reply, next: Point) -> Place
    ensures { (s : State) → Tells s reply →
        result ≡ cond (failed s) (finishing_at armed) (here armed next) }
{
    if reply.failed {
        here(armed, Point::Hook(Hook::ModifyBeforeCompletion))
    } else {
        here(armed, next)
    }
}

// The next point of a halted sequence, whose failure leads to the attempt's completion.
fn or_settle(armed: Armed, reply: Reply, next: Point) -> Place
    ensures { (s : State) → Tells s reply →
        result ≡ cond (failed s) (settling_at armed) (here armed next) }
{
    if reply.failed {
        here(armed, Point::Hook(Hook::ModifyBeforeAttemptCompletion))
    } else {
        here(armed, next)
    }
}

#[tactic(auto, unfolding(run_grammar::specs::Tests::timeout_stands))]
fn begin_turn(armed: Armed, standing: &Standing) -> Place
    ensures { (s : State) → s.context ≡ standing.now → result ≡ begin_turn armed s }
{
    if standing.nanos_for(Role::Attempt).is_some() {
        here(armed, Point::AtStartAttempt)
    } else {
        here(
            Armed {
                operation: armed.operation,
                attempt: false,
            },
            Point::Hook(Hook::ReadBeforeAttempt),
        )
    }
}

// A further attempt begins, or asks for its token.
#[tactic(auto, unfolding(run_grammar::specs::Tests::token_needed))]
fn go_again(armed: Armed, standing: &Standing) -> Place
    ensures { (s : State) → s.context ≡ standing.now → result ≡ go_again armed s }
{
    if standing.needs_token() {
        here(armed, Point::AtTokenInitial)
    } else {
        begin_turn(armed, standing)
    }
}

fn after_start_operation(reply: Reply) -> Place
    ensures { (armed : Armed) (stop : StopPoint) (s : State) → Tells s reply →
        result ≡ next_point stop armed Point.AtStartOperation s }
{
    here(
        Armed {
            operation: reply.has_started(Role::Operation),
            attempt: false,
        },
        Point::Hook(Hook::ModifyBeforeSerialization),
    )
}

#[tactic(auto, unfolding(run_grammar::specs::Tests::load_body))]
fn after_serialize(armed: Armed, reply: Reply, standing: &Standing) -> Place
    ensures { (stop : StopPoint) (s : State) → s.context ≡ standing.now → Tells s reply →
        result ≡ next_point stop armed Point.AtSerialize s }
{
    if standing.loads_body() {
        or_finish(armed, reply, Point::AtLoad)
    } else {
        or_finish(armed, reply, Point::Hook(Hook::ReadAfterSerialization))
    }
}

fn after_start_send(armed: Armed, reply: Reply) -> Place
    ensures { (stop : StopPoint) (s : State) → Tells s reply →
        result ≡ next_point stop armed Point.AtStartSend s }
{
    if reply.has_started(Role::Send) {
        here(armed, Point::AtWaitSend)
    } else {
        here(armed, Point::Hook(Hook::ModifyBeforeCompletion))
    }
}

fn after_start_attempt(armed: Armed, reply: Reply) -> Place
    ensures { (stop : StopPoint) (s : State) → Tells s reply →
        result ≡ next_point stop armed Point.AtStartAttempt s }
{
    here(
        Armed {
            operation: armed.operation,
            attempt: reply.has_started(Role::Attempt),
        },
        Point::Hook(Hook::ReadBeforeAttempt),
    )
}

#[tactic(auto, unfolding(run_grammar::specs::Tests::endpoint_stands))]
fn after_choose(armed: Armed, reply: Reply, standing: &Standing) -> Place
    ensures { (stop : StopPoint) (s : State) → s.context ≡ standing.now → Tells s reply →
        result ≡ next_point stop armed Point.AtChoose s }
{
    if standing.endpoint.is_some() {
        or_settle(armed, reply, Point::AtApply)
    } else {
        or_settle(armed, reply, Point::AtEndpoint)
    }
}

fn after_stream(armed: Armed, reply: Reply) -> Place
    ensures { (stop : StopPoint) (s : State) → Tells s reply →
        result ≡ next_point stop armed Point.AtStream s }
{
    if reply.not_streaming {
        here(armed, Point::AtBody)
    } else {
        here(armed, Point::Hook(Hook::ReadAfterDeserialization))
    }
}

fn after_body(armed: Armed, reply: Reply) -> Place
    ensures { (stop : StopPoint) (s : State) → Tells s reply →
        result ≡ next_point stop armed Point.AtBody s }
{
    if reply.read {
        here(armed, Point::AtDeserialize)
    } else {
        here(armed, Point::Hook(Hook::ReadAfterDeserialization))
    }
}

#[tactic(auto, unfolding(run_grammar::specs::Tests::checkpoint_stands))]
fn after_start_retry(armed: Armed, reply: Reply, standing: &Standing) -> Place
    ensures { (stop : StopPoint) (s : State) → s.context ≡ standing.now → Tells s reply →
        result ≡ next_point stop armed Point.AtStartRetry s }
{
    if reply.has_started(Role::Retry) && standing.context.checkpoint.is_some() {
        here(armed, Point::AtWaitRetry)
    } else {
        here(armed, Point::Hook(Hook::ModifyBeforeCompletion))
    }
}

fn after_start_long_poll(armed: Armed, reply: Reply) -> Place
    ensures { (stop : StopPoint) (s : State) → Tells s reply →
        result ≡ next_point stop armed Point.AtStartLongPoll s }
{
    if reply.has_started(Role::LongPoll) {
        here(armed, Point::AtWaitLongPoll)
    } else {
        here(armed, Point::Hook(Hook::ModifyBeforeCompletion))
    }
}

fn after_token(armed: Armed, reply: Reply, standing: &Standing) -> Place
    ensures { (stop : StopPoint) (s : State) → s.context ≡ standing.now → Tells s reply →
        result ≡ next_point stop armed Point.AtTokenInitial s }
{
    if reply.delayed {
        here(armed, Point::AtTokenStartSend)
    } else if reply.goes_on {
        begin_turn(armed, standing)
    } else {
        here(armed, Point::Hook(Hook::ModifyBeforeCompletion))
    }
}

fn after_token_start_send(armed: Armed, reply: Reply) -> Place
    ensures { (stop : StopPoint) (s : State) → Tells s reply →
        result ≡ next_point stop armed Point.AtTokenStartSend s }
{
    if reply.has_started(Role::Send) {
        here(armed, Point::AtTokenWaitSend)
    } else {
        here(armed, Point::Hook(Hook::ModifyBeforeCompletion))
    }
}
