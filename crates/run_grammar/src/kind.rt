//! What kinds of question a world is asked. The small enums that values name, as a phase or an
//! error kind, are in `smithy_types::kinds`.

ghost use Rattle.std.specs.Prelude.{◌≡◌};
ghost use Rattle.run_grammar.specs.Entry.{abandon_of, can_wait, same_role};

use smithy_types::Hook;

/// A step of the configuration.
#[derive(Clone, Copy, Debug, PartialEq, Eq)]
pub enum ConfigureStage {
    /// The client's settings.
    Client,
    /// The operation's settings.
    Operation,
    /// What stands over both.
    Final,
}

/// What a sleep is for.
#[derive(Clone, Copy, Debug, PartialEq, Eq)]
pub enum Role {
    /// The deadline of the whole operation.
    Operation,
    /// The deadline of one attempt.
    Attempt,
    /// The delay that a grant asks for, before the first attempt or before a further one.
    Send,
    /// The delay before a further attempt.
    Retry,
    /// The pause after a refused further attempt, before the operation ends.
    LongPoll,
}

/// What may be given up while it is pending.
#[derive(Clone, Copy, Debug, PartialEq, Eq)]
pub enum Abandonable {
    /// The load of the request's body.
    Load,
    /// The choice of a scheme and an identity.
    Choose,
    /// The resolution of the endpoint.
    Endpoint,
    /// The request that was sent.
    Transmit,
    /// The read of the response's body.
    Body,
    /// The delay that a grant asked for.
    WaitSend,
    /// The delay before a further attempt.
    WaitRetry,
    /// The pause after a refused further attempt.
    WaitLongPoll,
}

/// The kind of a question. The steps are those of the Rust crate's orchestrator.
#[derive(Clone, Copy, Debug, PartialEq, Eq)]
pub enum Kind {
    /// A layer of settings is asked for.
    Configure(ConfigureStage),
    /// The interceptors of a hook are run.
    Hook(Hook),
    /// The input is made a request.
    Serialize,
    /// The request's body is loaded into memory.
    Load,
    /// Whether a first attempt is made, or a further one that needs a token of its own.
    Initial,
    /// A sleep is started.
    Start(Role),
    /// Whether a sleep is over.
    Wait(Role),
    /// An auth scheme and an identity are chosen.
    Choose,
    /// The endpoint is resolved.
    Endpoint,
    /// The endpoint is put into the request.
    Apply,
    /// The request is signed.
    Sign,
    /// The request is sent, and a response awaited.
    Transmit,
    /// A streaming operation's response is read by its head alone.
    Stream,
    /// The response's body is read to its end.
    Body,
    /// The response is made an output or an error.
    Deserialize,
    /// Whether a further attempt is made.
    Decide,
    /// What is pending is given up.
    Abandon(Abandonable),
    /// Everything is pending: the caller may wait.
    Park,
}

impl Role {
    /// Whether the two roles are one.
    pub fn is(self, other: Role) -> bool
        ensures { result ≡ same_role self other }
    {
        match (self, other) {
            (Role::Operation, Role::Operation) => true,
            (Role::Attempt, Role::Attempt) => true,
            (Role::Send, Role::Send) => true,
            (Role::Retry, Role::Retry) => true,
            (Role::LongPoll, Role::LongPoll) => true,
            _ => false,
        }
    }
}

impl Kind {
    /// Whether a question of this kind may be answered Pending.
    pub fn can_wait(self) -> bool
        ensures { result ≡ can_wait self }
    {
        matches!(
            self,
            Kind::Load | Kind::Wait(_) | Kind::Choose | Kind::Endpoint | Kind::Transmit | Kind::Body
        )
    }

    /// The kind of the question that gives up what a question of this kind has pending; Park where
    /// it has nothing.
    pub fn given_up_by(self) -> Kind
        ensures { result ≡ abandon_of self }
    {
        match self {
            Kind::Load => Kind::Abandon(Abandonable::Load),
            Kind::Choose => Kind::Abandon(Abandonable::Choose),
            Kind::Endpoint => Kind::Abandon(Abandonable::Endpoint),
            Kind::Transmit => Kind::Abandon(Abandonable::Transmit),
            Kind::Body => Kind::Abandon(Abandonable::Body),
            Kind::Wait(Role::Send) => Kind::Abandon(Abandonable::WaitSend),
            Kind::Wait(Role::Retry) => Kind::Abandon(Abandonable::WaitRetry),
            Kind::Wait(Role::LongPoll) => Kind::Abandon(Abandonable::WaitLongPoll),
            _ => Kind::Park,
        }
    }
}
