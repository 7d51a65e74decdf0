//! The names that stand in scripts and prints.
ghost use Rattle.std.specs.Prelude.{◌≡◌, map, nat_eq};
ghost use Rattle.std.specs.Cmp.Lexicographic.{pointwise};
ghost use Rattle.json_forms.specs.Forms.{named};
ghost use Rattle.json_values.specs.Names.{kind_text, error_kind_text};
ghost use Rattle.json_values.specs.Names.{stop_text, mode_text, reconnect_text, version_text};
ghost use Rattle.json_values.specs.Names.{spec_versions, error_kinds, stop_points, retry_modes};
ghost use Rattle.json_values.specs.Names.{reconnect_modes, all_kinds};

use run_grammar::{Abandonable, ConfigureStage, Kind, Role};
use smithy_types::{ErrorKind, Hook, ReconnectMode, RetryMode, RetrySpecVersion, StopPoint};

/// A kind of question, as it is printed: its name, behind what it is of where it has a part.
pub fn kind_title(kind: Kind) -> &'static str
    ensures { result.now ≡ kind_text kind }
{
    match kind {
        Kind::Configure(stage) => configure_title(stage),
        Kind::Hook(hook) => hook.title(),
        Kind::Start(role) => start_title(role),
        Kind::Wait(role) => wait_title(role),
        Kind::Abandon(abandoned) => abandon_title(abandoned),
        Kind::Serialize => "Serialize",
        Kind::Load => "Load",
        Kind::Initial => "Initial",
        Kind::Choose => "Choose",
        Kind::Endpoint => "Endpoint",
        Kind::Apply => "Apply",
        Kind::Sign => "Sign",
        Kind::Transmit => "Transmit",
        Kind::Stream => "Stream",
        Kind::Body => "Body",
        Kind::Deserialize => "Deserialize",
        Kind::Decide => "Decide",
        Kind::Park => "Park",
    }
}

// A step of the configuration, as a kind of question.
fn configure_title(stage: ConfigureStage) -> &'static str
    ensures { result.now ≡ kind_text (Kind.Configure stage) }
{
    match stage {
        ConfigureStage::Client => "Configure Client",
        ConfigureStage::Operation => "Configure Operation",
        ConfigureStage::Final => "Configure Final",
    }
}

// The start of a sleep, as a kind of question.
fn start_title(role: Role) -> &'static str
    ensures { result.now ≡ kind_text (Kind.Start role) }
{
    match role {
        Role::Operation => "Start Operation",
        Role::Attempt => "Start Attempt",
        Role::Send => "Start Send",
        Role::Retry => "Start Retry",
        Role::LongPoll => "Start LongPoll",
    }
}

// A sleep, as a kind of question.
fn wait_title(role: Role) -> &'static str
    ensures { result.now ≡ kind_text (Kind.Wait role) }
{
    match role {
        Role::Operation => "Wait Operation",
        Role::Attempt => "Wait Attempt",
        Role::Send => "Wait Send",
        Role::Retry => "Wait Retry",
        Role::LongPoll => "Wait LongPoll",
    }
}

// What is given up, as a kind of question.
fn abandon_title(abandoned: Abandonable) -> &'static str
    ensures { result.now ≡ kind_text (Kind.Abandon abandoned) }
{
    match abandoned {
        Abandonable::Load => "Abandon Load",
        Abandonable::Choose => "Abandon Choose",
        Abandonable::Endpoint => "Abandon Endpoint",
        Abandonable::Transmit => "Abandon Transmit",
        Abandonable::Body => "Abandon Body",
        Abandonable::WaitSend => "Abandon Wait Send",
        Abandonable::WaitRetry => "Abandon Wait Retry",
        Abandonable::WaitLongPoll => "Abandon Wait LongPoll",
    }
}

/// The printed name of a kind of error: that of the Rust crate.
pub fn error_kind_name(kind: ErrorKind) -> &'static str
    ensures { result.now ≡ error_kind_text kind }
{
    match kind {
        ErrorKind::TransientError => "TransientError",
        ErrorKind::ThrottlingError => "ThrottlingError",
        ErrorKind::ServerError => "ServerError",
        ErrorKind::ClientError => "ClientError",
    }
}

/// The printed name of a stop point: that of the Rust crate.
pub fn stop_name(stop: StopPoint) -> &'static str
    ensures { result.now ≡ stop_text stop }
{
    match stop {
        StopPoint::None => "None",
        StopPoint::BeforeTransmit => "BeforeTransmit",
    }
}

/// The printed name of a version of the retry behaviour's specification: that of the Rust crate.
pub fn version_name(version: RetrySpecVersion) -> &'static str
    ensures { result.now ≡ version_text version }
{
    match version {
        RetrySpecVersion::V2_0 => "V2_0",
        RetrySpecVersion::V2_1 => "V2_1",
    }
}

/// The printed name of a retry mode: that of the Rust crate.
pub fn mode_name(mode: RetryMode) -> &'static str
    ensures { result.now ≡ mode_text mode }
{
    match mode {
        RetryMode::Standard => "Standard",
        RetryMode::Adaptive => "Adaptive",
    }
}

/// The printed name of a reconnect mode: that of the Rust crate.
pub fn reconnect_name(mode: ReconnectMode) -> &'static str
    ensures { result.now ≡ reconnect_text mode }
{
    match mode {
        ReconnectMode::ReconnectOnTransientError => "ReconnectOnTransientError",
        ReconnectMode::ReuseAllConnections => "ReuseAllConnections",
    }
}

// The kinds of the configuration's steps.
const STEPS: [Kind; 3] = [
    Kind::Configure(ConfigureStage::Client),
    Kind::Configure(ConfigureStage::Operation),
    Kind::Configure(ConfigureStage::Final),
];

// The kinds but for these and for the hooks.
const OTHER_KINDS: [Kind; 31] = [
    Kind::Serialize,
    Kind::Load,
    Kind::Initial,
    Kind::Choose,
    Kind::Endpoint,
    Kind::Apply,
    Kind::Sign,
    Kind::Transmit,
    Kind::Stream,
    Kind::Body,
    Kind::Deserialize,
    Kind::Decide,
    Kind::Park,
    Kind::Start(Role::Operation),
    Kind::Start(Role::Attempt),
    Kind::Start(Role::Send),
    Kind::Start(Role::Retry),
    Kind::Start(Role::LongPoll),
    Kind::Wait(Role::Operation),
    Kind::Wait(Role::Attempt),
    Kind::Wait(Role::Send),
    Kind::Wait(Role::Retry),
    Kind::Wait(Role::LongPoll),
    Kind::Abandon(Abandonable::Load),
    Kind::Abandon(Abandonable::Choose),
    Kind::Abandon(Abandonable::Endpoint),
    Kind::Abandon(Abandonable::Transmit),
    Kind::Abandon(Abandonable::Body),
    Kind::Abandon(Abandonable::WaitSend),
    Kind::Abandon(Abandonable::WaitRetry),
    Kind::Abandon(Abandonable::WaitLongPoll),
];

const ERROR_KINDS: [ErrorKind; 4] = [
    ErrorKind::TransientError,
    ErrorKind::ThrottlingError,
    ErrorKind::ServerError,
    ErrorKind::ClientError,
];

/// The kind of question that is printed so.
#[tactic(auto, using(crate::proofs::FoundNames::found_by_name))]
pub fn kind_named(text: &str) -> Option<Kind>
    ensures { result ≡ named kind_text all_kinds text.now }
{
    let likely = likely_kind(text.as_bytes());
    if is_named(likely, text) {
        Some(likely)
    } else {
        any_named(text)
    }
}

// The same, by a search of all kinds.
#[tactic(auto, using(crate::proofs::FoundNames::named_in_three))]
fn any_named(text: &str) -> Option<Kind>
    ensures { result ≡ named kind_text all_kinds text.now }
{
    let step = first_named(&STEPS, text);
    let hook = first_hook(&Hook::ALL, text);
    let other = first_named(&OTHER_KINDS, text);
    step.or(hook).or(other)
}

fn first_hook(hooks: &[Hook], text: &str) -> Option<Kind>
    ensures { result ≡ named kind_text (map Kind.Hook hooks.now) text.now }
{
    hooks
        .iter()
        .map(|hook| Kind::Hook(*hook))
        .find(|kind| is_named(*kind, text))
}

fn first_named(kinds: &[Kind], text: &str) -> Option<Kind>
    ensures { result ≡ named kind_text kinds.now text.now }
{
    kinds.iter().copied().find(|kind| is_named(*kind, text))
}

fn is_named(kind: Kind, text: &str) -> bool
    ensures { result ≡ pointwise nat_eq text.now (kind_text kind) }
{
    text == kind_title(kind)
}

// The kind whose name may be this one: names are told apart by their lengths, and by one byte
// where lengths are equal. Whether it is named so is still to be tested.
fn likely_kind(name: &[u8]) -> Kind {
    match name.len() {
        4 => match byte_at(name, 0) {
            b'L' => Kind::Load,
            b'S' => Kind::Sign,
            b'B' => Kind::Body,
            _ => Kind::Park,
        },
        5 => Kind::Apply,
        6 => match byte_at(name, 0) {
            b'C' => Kind::Choose,
            b'S' => Kind::Stream,
            _ => Kind::Decide,
        },
        7 => Kind::Initial,
        8 => match byte_at(name, 0) {
            b'E' => Kind::Endpoint,
            _ => Kind::Transmit,
        },
        _ => likely_longer(name),
    }
}

// The same, of names of at least nine bytes.
fn likely_longer(name: &[u8]) -> Kind {
    match byte_at(name, 0) {
        b'H' => Kind::Hook(Hook::likely(name)),
        b'S' => match byte_at(name, 1) {
            b't' => Kind::Start(likely_role(byte_at(name, 6))),
            _ => Kind::Serialize,
        },
        b'W' => Kind::Wait(likely_role(byte_at(name, 5))),
        b'A' => Kind::Abandon(likely_abandoned(name)),
        b'C' => Kind::Configure(likely_stage(byte_at(name, 10))),
        _ => Kind::Deserialize,
    }
}

// The step of the configuration whose name begins so.
fn likely_stage(first: u8) -> ConfigureStage {
    match first {
        b'C' => ConfigureStage::Client,
        b'O' => ConfigureStage::Operation,
        _ => ConfigureStage::Final,
    }
}

// What a sleep is for, where its name begins so.
fn likely_role(first: u8) -> Role {
    match first {
        b'O' => Role::Operation,
        b'A' => Role::Attempt,
        b'S' => Role::Send,
        b'R' => Role::Retry,
        _ => Role::LongPoll,
    }
}

// What may be given up, of the name of a kind of question.
fn likely_abandoned(name: &[u8]) -> Abandonable {
    match name.len() {
        12 => match byte_at(name, 8) {
            b'L' => Abandonable::Load,
            _ => Abandonable::Body,
        },
        14 => Abandonable::Choose,
        16 => match byte_at(name, 8) {
            b'E' => Abandonable::Endpoint,
            _ => Abandonable::Transmit,
        },
        17 => Abandonable::WaitSend,
        18 => Abandonable::WaitRetry,
        _ => Abandonable::WaitLongPoll,
    }
}

// The byte at this place, and 0 behind the last one.
fn byte_at(bytes: &[u8], place: usize) -> u8 {
    match bytes.get(place) {
        Some(byte) => *byte,
        None => 0,
    }
}

/// The kind of error that is printed so.
pub fn error_kind_named(text: &str) -> Option<ErrorKind>
    ensures { result ≡ named error_kind_text error_kinds text.now }
{
    first_error_kind(&ERROR_KINDS, text)
}

fn first_error_kind(kinds: &[ErrorKind], text: &str) -> Option<ErrorKind>
    ensures { result ≡ named error_kind_text kinds.now text.now }
{
    kinds
        .iter()
        .copied()
        .find(|kind| text == error_kind_name(*kind))
}

/// The stop point that is printed so.
pub fn stop_named(text: &str) -> Option<StopPoint>
    ensures { result ≡ named stop_text stop_points text.now }
{
    if text == "None" {
        Some(StopPoint::None)
    } else if text == "BeforeTransmit" {
        Some(StopPoint::BeforeTransmit)
    } else {
        None
    }
}

/// The version of the retry behaviour's specification that is printed so.
pub fn version_named(text: &str) -> Option<RetrySpecVersion>
    ensures { result ≡ named version_text spec_versions text.now }
{
    if text == "V2_0" {
        Some(RetrySpecVersion::V2_0)
    } else if text == "V2_1" {
        Some(RetrySpecVersion::V2_1)
    } else {
        None
    }
}

/// The mode of retries that is printed so.
pub fn mode_named(text: &str) -> Option<RetryMode>
    ensures { result ≡ named mode_text retry_modes text.now }
{
    if text == "Standard" {
        Some(RetryMode::Standard)
    } else if text == "Adaptive" {
        Some(RetryMode::Adaptive)
    } else {
        None
    }
}

/// The mode of reconnection that is printed so.
pub fn reconnect_named(text: &str) -> Option<ReconnectMode>
    ensures { result ≡ named reconnect_text reconnect_modes text.now }
{
    if text == "ReconnectOnTransientError" {
        Some(ReconnectMode::ReconnectOnTransientError)
    } else if text == "ReuseAllConnections" {
        Some(ReconnectMode::ReuseAllConnections)
    } else {
        None
    }
}
