//! The kinds of question but for the hooks, each once.
use run_grammar::{Abandonable, ConfigureStage, Kind, Role};

/// The steps of the configuration, which come before the hooks.
pub const STEPS: &[Kind] = &[
    Kind::Configure(ConfigureStage::Client),
    Kind::Configure(ConfigureStage::Operation),
    Kind::Configure(ConfigureStage::Final),
];

/// The other kinds, in the order in which a run comes to them.
pub const OTHERS: &[Kind] = &[
    Kind::Serialize,
    Kind::Load,
    Kind::Initial,
    Kind::Start(Role::Operation),
    Kind::Start(Role::Attempt),
    Kind::Start(Role::Send),
    Kind::Start(Role::Retry),
    Kind::Start(Role::LongPoll),
    Kind::Wait(Role::Operation),
    Kind::Wait(Role::Attempt),
    Kind::Wait(Role::Send),
    Kind::Wait(Role::Retry),
    Kind::Wait(Role::LongPoll),
    Kind::Choose,
    Kind::Endpoint,
    Kind::Apply,
    Kind::Sign,
    Kind::Transmit,
    Kind::Stream,
    Kind::Body,
    Kind::Deserialize,
    Kind::Decide,
    Kind::Abandon(Abandonable::Load),
    Kind::Abandon(Abandonable::Choose),
    Kind::Abandon(Abandonable::Endpoint),
    Kind::Abandon(Abandonable::Transmit),
    Kind::Abandon(Abandonable::Body),
    Kind::Abandon(Abandonable::WaitSend),
    Kind::Abandon(Abandonable::WaitRetry),
    Kind::Abandon(Abandonable::WaitLongPoll),
    Kind::Park,
];
