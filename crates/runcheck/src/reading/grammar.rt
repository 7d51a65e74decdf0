//! The grammar, as productions that code reads. Each function is the definition of its name.
ghost use Rattle.std.specs.Prelude.{◌≡◌, IfOk};
ghost use Rattle.run_grammar.specs.Grammar.{again, arm, armed, attempt, configured, finish, front};
ghost use Rattle.run_grammar.specs.Grammar.{grant, grant_round, hook, op, opening, round, run};
ghost use Rattle.run_grammar.specs.Grammar.{sending, settle, streaming, turn};
ghost use Rattle.run_grammar.specs.Production.{Nothing, Work, ◌⨟◌, Where, Rounds, Again, InAttempt};
ghost use Rattle.run_grammar.specs.declared.production.Test.TheVariants as tests;
ghost use Rattle.run_grammar.specs.declared.kind.Kind.TheVariants as kinds;
ghost use Rattle.run_grammar.specs.declared.kind.Role.TheVariants as roles;
ghost use Rattle.runcheck.specs.Reading.Productions.{production_of};

use crate::reading::production::Production;
use run_grammar::{ConfigureStage, Kind, Role, StopPoint, Test};
use smithy_types::{Hook, OutOfMemory};
use std::alloc::Global;

fn hook(point: Hook) -> Production
    ensures { production_of result ≡ hook point }
{
    Production::Work(Kind::Hook(point))
}

fn work(kind: Kind) -> Production
    ensures { production_of result ≡ Work kind }
{
    Production::Work(kind)
}

fn then(alloc: Global, first: Production, second: Production) -> Result<Production, OutOfMemory>
    ensures { IfOk result (λ p. production_of p ≡ (production_of first ⨟ production_of second)) }
{
    Ok(Production::Then(Box::new(alloc, first)?, Box::new(alloc, second)?))
}

fn either(
    alloc: Global,
    test: Test,
    holds: Production,
    fails: Production,
) -> Result<Production, OutOfMemory>
    ensures { IfOk result (λ p. production_of p ≡
        Where test (production_of holds) (production_of fails)) }
{
    Ok(Production::Where(test, Box::new(alloc, holds)?, Box::new(alloc, fails)?))
}

// The production where the test holds.
fn only(alloc: Global, test: Test, holds: Production) -> Result<Production, OutOfMemory>
    ensures { IfOk result (λ p. production_of p ≡ Where test (production_of holds) Nothing) }
{
    let found = either(alloc, test, holds, Production::Nothing)?;
    Ok(found)
}

// The production where the last entry doesn't fail.
fn unless_failed(alloc: Global, rest: Production) -> Result<Production, OutOfMemory>
    ensures { IfOk result (λ p. production_of p ≡ Where tests.Failed Nothing (production_of rest)) }
{
    let found = either(alloc, Test::Failed, Production::Nothing, rest)?;
    Ok(found)
}

// A step of a halted word, and the rest of it.
fn halted(alloc: Global, step: Production, rest: Production) -> Result<Production, OutOfMemory>
    ensures { IfOk result (λ p. production_of p ≡
        (production_of step ⨟ Where tests.Failed Nothing (production_of rest))) }
{
    let rest = unless_failed(alloc, rest)?;
    let found = then(alloc, step, rest)?;
    Ok(found)
}

fn rounds(alloc: Global, round: Production, further: Production) -> Result<Production, OutOfMemory>
    ensures { IfOk result (λ p. production_of p ≡
        Rounds (production_of round) (production_of further)) }
{
    Ok(Production::Rounds(Box::new(alloc, round)?, Box::new(alloc, further)?))
}

fn arm(alloc: Global, role: Role) -> Result<Production, OutOfMemory>
    ensures { IfOk result (λ p. production_of p ≡ arm role) }
{
    let found = only(alloc, Test::TimeoutStands(role), work(Kind::Start(role)))?;
    Ok(found)
}

// The production twice: with the deadline armed, and without.
fn armed(
    alloc: Global,
    role: Role,
    within: Production,
    without: Production,
    after: Production,
) -> Result<Production, OutOfMemory>
    requires { production_of without ≡ production_of within }
    ensures { IfOk result (λ p. production_of p ≡
        armed role (production_of within) (production_of after)) }
{
    let first = arm(alloc, role)?;
    let scope = Production::Under(role, Box::new(alloc, within)?, Box::new(alloc, after)?);
    let second = either(alloc, Test::HasStarted(role), scope, without)?;
    let found = then(alloc, first, second)?;
    Ok(found)
}

fn opening(alloc: Global) -> Result<Production, OutOfMemory>
    ensures { IfOk result (λ p. production_of p ≡ opening) }
{
    let rest = halted(
        alloc,
        hook(Hook::ModifyBeforeTransmit),
        hook(Hook::ReadBeforeTransmit),
    )?;
    let rest = halted(alloc, hook(Hook::ReadAfterSigning), rest)?;
    let rest = halted(alloc, work(Kind::Sign), rest)?;
    let rest = halted(alloc, hook(Hook::ReadBeforeSigning), rest)?;
    let rest = halted(alloc, hook(Hook::ModifyBeforeSigning), rest)?;
    let rest = halted(alloc, work(Kind::Apply), rest)?;
    let endpoint = either(
        alloc,
        Test::EndpointStands,
        Production::Nothing,
        work(Kind::Endpoint),
    )?;
    let rest = halted(alloc, endpoint, rest)?;
    let rest = halted(alloc, work(Kind::Choose), rest)?;
    let rest = halted(alloc, hook(Hook::ReadBeforeAttempt), rest)?;
    Ok(rest)
}

fn sending(alloc: Global) -> Result<Production, OutOfMemory>
    ensures { IfOk result (λ p. production_of p ≡ sending) }
{
    let last = hook(Hook::ReadBeforeDeserialization);
    let rest = halted(alloc, hook(Hook::ModifyBeforeDeserialization), last)?;
    let rest = halted(alloc, hook(Hook::ReadAfterTransmit), rest)?;
    let rest = halted(alloc, work(Kind::Transmit), rest)?;
    Ok(rest)
}

fn streaming(alloc: Global) -> Result<Production, OutOfMemory>
    ensures { IfOk result (λ p. production_of p ≡ streaming) }
{
    let output = only(alloc, Test::BodyRead, work(Kind::Deserialize))?;
    let body = then(alloc, work(Kind::Body), output)?;
    let body = only(alloc, Test::NotStreaming, body)?;
    let rest = then(alloc, body, hook(Hook::ReadAfterDeserialization))?;
    let rest = then(alloc, work(Kind::Stream), rest)?;
    Ok(rest)
}

fn attempt(alloc: Global, stop: StopPoint) -> Result<Production, OutOfMemory>
    ensures { IfOk result (λ p. production_of p ≡ attempt stop) }
{
    match stop {
        StopPoint::BeforeTransmit => {
            let found = opening(alloc)?;
            Ok(found)
        }
        StopPoint::None => {
            let streaming = streaming(alloc)?;
            let sending = sending(alloc)?;
            let rest = halted(alloc, sending, streaming)?;
            let opening = opening(alloc)?;
            let found = halted(alloc, opening, rest)?;
            Ok(found)
        }
    }
}

fn settle(alloc: Global) -> Result<Production, OutOfMemory>
    ensures { IfOk result (λ p. production_of p ≡ settle) }
{
    let last = hook(Hook::ReadAfterAttempt);
    let found = then(alloc, hook(Hook::ModifyBeforeAttemptCompletion), last)?;
    Ok(found)
}

fn tried(alloc: Global, stop: StopPoint) -> Result<Production, OutOfMemory>
    ensures { IfOk result (λ p. production_of p ≡ InAttempt (attempt stop)) }
{
    let found = attempt(alloc, stop)?;
    Ok(Production::InAttempt(Box::new(alloc, found)?))
}

fn turn(alloc: Global, stop: StopPoint) -> Result<Production, OutOfMemory>
    ensures { IfOk result (λ p. production_of p ≡ turn stop) }
{
    let within = tried(alloc, stop)?;
    let without = tried(alloc, stop)?;
    let tries = armed(alloc, Role::Attempt, within, without, Production::Nothing)?;
    let settle = settle(alloc)?;
    let rest = then(alloc, settle, work(Kind::Decide))?;
    let found = then(alloc, tries, rest)?;
    Ok(found)
}

fn grant_round(alloc: Global) -> Result<Production, OutOfMemory>
    ensures { IfOk result (λ p. production_of p ≡ grant_round) }
{
    let wait = then(alloc, work(Kind::Wait(Role::Send)), Production::Again)?;
    let wait = only(alloc, Test::HasStarted(Role::Send), wait)?;
    let later = then(alloc, work(Kind::Start(Role::Send)), wait)?;
    let later = only(alloc, Test::Delayed, later)?;
    let found = then(alloc, work(Kind::Initial), later)?;
    Ok(found)
}

fn grant(alloc: Global) -> Result<Production, OutOfMemory>
    ensures { IfOk result (λ p. production_of p ≡ grant) }
{
    let one = grant_round(alloc)?;
    let further = grant_round(alloc)?;
    let found = rounds(alloc, one, further)?;
    Ok(found)
}

fn again(alloc: Global) -> Result<Production, OutOfMemory>
    ensures { IfOk result (λ p. production_of p ≡ again) }
{
    let grant = grant(alloc)?;
    let granted = only(alloc, Test::WentOn, Production::Again)?;
    let token = then(alloc, grant, granted)?;
    let found = either(alloc, Test::NeedsToken, token, Production::Again)?;
    Ok(found)
}

// What a decision of Yes leads to.
fn further_now(alloc: Global) -> Result<Production, OutOfMemory>
    ensures { IfOk result (λ p. production_of p ≡ Where tests.CheckpointStands again Nothing) }
{
    let again = again(alloc)?;
    let found = only(alloc, Test::CheckpointStands, again)?;
    Ok(found)
}

// What a refusal with a pause leads to.
fn long_poll(alloc: Global) -> Result<Production, OutOfMemory>
    ensures { IfOk result (λ p. production_of p ≡
        (Work (kinds.Start roles.LongPoll) ⨟ Where (tests.HasStarted roles.LongPoll)
        (Work (kinds.Wait roles.LongPoll)) Nothing)) }
{
    let wait = work(Kind::Wait(Role::LongPoll));
    let wait = only(alloc, Test::HasStarted(Role::LongPoll), wait)?;
    let found = then(alloc, work(Kind::Start(Role::LongPoll)), wait)?;
    Ok(found)
}

// What a decision of a delay leads to.
fn further_later(alloc: Global) -> Result<Production, OutOfMemory>
    ensures { IfOk result (λ p. production_of p ≡
        (Work (kinds.Start roles.Retry) ⨟ Where (tests.HasStarted roles.Retry)
        (Where tests.CheckpointStands (Work (kinds.Wait roles.Retry) ⨟ again) Nothing) Nothing)) }
{
    let again = again(alloc)?;
    let wait = then(alloc, work(Kind::Wait(Role::Retry)), again)?;
    let wait = only(alloc, Test::CheckpointStands, wait)?;
    let wait = only(alloc, Test::HasStarted(Role::Retry), wait)?;
    let found = then(alloc, work(Kind::Start(Role::Retry)), wait)?;
    Ok(found)
}

fn round(alloc: Global, stop: StopPoint) -> Result<Production, OutOfMemory>
    ensures { IfOk result (λ p. production_of p ≡ round stop) }
{
    let later = further_later(alloc)?;
    let later = only(alloc, Test::DecidedDelay, later)?;
    let pause = long_poll(alloc)?;
    let rest = either(alloc, Test::DecidedNoAfter, pause, later)?;
    let now = further_now(alloc)?;
    let rest = either(alloc, Test::DecidedYes, now, rest)?;
    let turn = turn(alloc, stop)?;
    let found = then(alloc, turn, rest)?;
    Ok(found)
}

fn front(alloc: Global) -> Result<Production, OutOfMemory>
    ensures { IfOk result (λ p. production_of p ≡ front) }
{
    let last = hook(Hook::ModifyBeforeRetryLoop);
    let rest = halted(alloc, hook(Hook::ReadAfterSerialization), last)?;
    let load = only(alloc, Test::LoadBody, work(Kind::Load))?;
    let rest = halted(alloc, load, rest)?;
    let rest = halted(alloc, work(Kind::Serialize), rest)?;
    let rest = halted(alloc, hook(Hook::ReadBeforeSerialization), rest)?;
    let rest = halted(alloc, hook(Hook::ModifyBeforeSerialization), rest)?;
    Ok(rest)
}

fn op(alloc: Global, stop: StopPoint) -> Result<Production, OutOfMemory>
    ensures { IfOk result (λ p. production_of p ≡ op stop) }
{
    let one = round(alloc, stop)?;
    let further = round(alloc, stop)?;
    let tries = rounds(alloc, one, further)?;
    let tries = only(alloc, Test::Went, tries)?;
    let grant = grant(alloc)?;
    let rest = then(alloc, grant, tries)?;
    let front = front(alloc)?;
    let found = halted(alloc, front, rest)?;
    Ok(found)
}

fn finish(alloc: Global) -> Result<Production, OutOfMemory>
    ensures { IfOk result (λ p. production_of p ≡ finish) }
{
    let last = hook(Hook::ReadAfterExecution);
    let found = then(alloc, hook(Hook::ModifyBeforeCompletion), last)?;
    Ok(found)
}

fn configured(alloc: Global, rest: Production) -> Result<Production, OutOfMemory>
    ensures { IfOk result (λ p. production_of p ≡ configured (production_of rest)) }
{
    let rest = halted(alloc, work(Kind::Configure(ConfigureStage::Final)), rest)?;
    let rest = then(alloc, hook(Hook::ReadBeforeExecutionOperation), rest)?;
    let rest = halted(
        alloc,
        work(Kind::Configure(ConfigureStage::Operation)),
        rest,
    )?;
    let rest = then(alloc, hook(Hook::ReadBeforeExecutionClient), rest)?;
    let rest = halted(alloc, work(Kind::Configure(ConfigureStage::Client)), rest)?;
    Ok(rest)
}

/// The production of a run.
#[tactic(auto, unfolding(run_grammar::specs::Grammar::run))]
pub fn run(alloc: Global, stop: StopPoint) -> Result<Production, OutOfMemory>
    ensures { IfOk result (λ p. production_of p ≡ run stop) }
{
    let within = op(alloc, stop)?;
    let without = op(alloc, stop)?;
    let after = settle(alloc)?;
    let whole = armed(alloc, Role::Operation, within, without, after)?;
    let last = finish(alloc)?;
    let whole = then(alloc, whole, last)?;
    let arm = arm(alloc, Role::Operation)?;
    let last = finish(alloc)?;
    let failed = then(alloc, arm, last)?;
    let rest = either(alloc, Test::FailureStands, failed, whole)?;
    let found = configured(alloc, rest)?;
    Ok(found)
}
