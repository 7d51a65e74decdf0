//! Start and Wait: the sleeps of a client, one for each role.
ghost use Rattle.std.specs.Prelude.{◌≡◌, [], IfOk, None, OnErr};
ghost use Rattle.smithy_types.specs.Chain.{ByCalls, Chained};
ghost use Rattle.client_call.specs.Sleeping.{Starts, Waits, give_up_all, giving_up, no_sleeps};
ghost use Rattle.client_call.specs.Sleeping.{sleep_of, with_sleep};

use outside::Outside;
use run_grammar::{Answer, Role};
use smithy_types::OutOfMemory;
use std::alloc::Global;

/// The number of the open sleep of each role. A sleep that is over stays open, until it is given
/// up.
#[derive(Clone, Copy, Debug, PartialEq, Eq)]
pub struct Sleeps {
    /// That of the deadline of the whole operation.
    pub operation: Option<u64>,
    /// That of the deadline of one attempt.
    pub attempt: Option<u64>,
    /// That of the delay that a grant asks for.
    pub send: Option<u64>,
    /// That of the delay before a further attempt.
    pub retry: Option<u64>,
    /// That of the pause after a refused further attempt.
    pub long_poll: Option<u64>,
}

impl Sleeps {
    /// No sleep is open.
    pub fn none() -> Sleeps
        ensures { result ≡ no_sleeps }
    {
        Sleeps {
            operation: None,
            attempt: None,
            send: None,
            retry: None,
            long_poll: None,
        }
    }

    /// The open sleep of this role.
    pub fn of(&self, role: Role) -> Option<u64>
        ensures { result ≡ sleep_of role self.now }
    {
        match role {
            Role::Operation => self.operation,
            Role::Attempt => self.attempt,
            Role::Send => self.send,
            Role::Retry => self.retry,
            Role::LongPoll => self.long_poll,
        }
    }

    /// From here on this is the role's open sleep.
    pub fn put(&mut self, role: Role, sleep: Option<u64>)
        ensures { self.new ≡ with_sleep role sleep self.old }
    {
        match role {
            Role::Operation => self.operation = sleep,
            Role::Attempt => self.attempt = sleep,
            Role::Send => self.send = sleep,
            Role::Retry => self.retry = sleep,
            Role::LongPoll => self.long_poll = sleep,
        }
    }
}

/// Starts the sleep of a role, of so many nanoseconds, in place of a former one. It is Absent
/// exactly where the client was built without sleeps. A length that wasn't handed is 0.
pub fn start<X: Outside>(
    alloc: Global,
    has_sleep: bool,
    sleeps: &mut Sleeps,
    outside: &mut X,
    role: Role,
    nanos: Option<u64>,
) -> Result<Answer, OutOfMemory>
    ensures ok { IfOk result (λ a.
        ByCalls X.makes outside.old (Starts has_sleep role nanos sleeps.old a sleeps.new)
        outside.new) }
    ensures err { OnErr result ((calls : _) × Chained X.makes outside.old calls outside.new) }
    ensures sleeps { OnErr result (sleeps.new ≡ with_sleep role None sleeps.old) }
{
    if !has_sleep {
        return Ok(Answer::Absent);
    }
    end_role(sleeps, outside, role);
    let sleep = outside.start(alloc, nanos.unwrap_or(0))?;
    sleeps.put(role, sleep);
    Ok(Answer::Started)
}

/// Asks whether the sleep of a role is over. Where none is open there is nothing to wait for.
pub fn wait<X: Outside>(sleeps: &Sleeps, outside: &mut X, role: Role) -> Answer
    ensures { ByCalls X.makes outside.old (Waits (sleep_of role sleeps.now) result) outside.new }
{
    match sleeps.of(role) {
        None => Answer::Ready,
        Some(sleep) => {
            if outside.ready(sleep) {
                Answer::Ready
            } else {
                Answer::Pending
            }
        }
    }
}

/// Gives a sleep up, where one is open.
pub fn give_up<X: Outside>(sleep: Option<u64>, outside: &mut X)
    ensures { Chained X.makes outside.old (giving_up sleep) outside.new }
{
    if let Some(open) = sleep {
        outside.give_up(open);
    }
}

/// Gives the open sleep of a role up, as it is right before the interceptors of
/// modify_before_attempt_completion for the attempt.
pub fn end_role<X: Outside>(sleeps: &mut Sleeps, outside: &mut X, role: Role)
    ensures sleeps { sleeps.new ≡ with_sleep role None sleeps.old }
    ensures calls { Chained X.makes outside.old (giving_up (sleep_of role sleeps.old)) outside.new }
{
    give_up(sleeps.of(role), outside);
    sleeps.put(role, None);
}

/// Gives the open sleep of every role up, as it is right before the interceptors of
/// modify_before_completion.
pub fn end_all_sleeps<X: Outside>(sleeps: &mut Sleeps, outside: &mut X)
    ensures sleeps { sleeps.new ≡ no_sleeps }
    ensures calls { Chained X.makes outside.old (give_up_all sleeps.old) outside.new }
{
    give_up(sleeps.operation, outside);
    give_up(sleeps.attempt, outside);
    give_up(sleeps.send, outside);
    give_up(sleeps.retry, outside);
    give_up(sleeps.long_poll, outside);
    *sleeps = Sleeps::none();
}
