//! The hooks of a run, in the order in which a run without a retry calls them.
ghost use Rattle.std.specs.Prelude.{◌≡◌};
ghost use Rattle.smithy_types.specs.Hooks.{hook_text, hook_title, of_attempt, of_operation, part_of};

/// A part of a run, by the deadlines that are asked there.
#[derive(Clone, Copy, Debug, PartialEq, Eq)]
pub enum RunPart {
    /// The configuration, before the operation's deadline is armed.
    Configuration,
    /// What comes before the first attempt.
    Front,
    /// An attempt, up to its output or its failure.
    Attempt,
    /// What follows an attempt, cut or not.
    Settle,
    /// The operation's end, which no deadline cuts.
    Finish,
}

impl RunPart {
    /// Whether the attempt's deadline is asked there.
    pub fn is_attempt(self) -> bool
        ensures { result ≡ of_attempt self }
    {
        matches!(self, RunPart::Attempt)
    }

    /// Whether the operation's deadline is asked there.
    pub fn is_operation(self) -> bool
        ensures { result ≡ of_operation self }
    {
        matches!(self, RunPart::Front | RunPart::Attempt | RunPart::Settle)
    }
}

/// A place in a run at which interceptors are called. The names are those of the Rust crate's
/// `Intercept` trait.
#[derive(Clone, Copy, Debug, PartialEq, Eq)]
pub enum Hook {
    /// `read_before_execution` of the client's interceptors.
    ReadBeforeExecutionClient,
    /// `read_before_execution` of the operation's interceptors.
    ReadBeforeExecutionOperation,
    /// Before the input is made a request. It may write the input.
    ModifyBeforeSerialization,
    /// The last one before that.
    ReadBeforeSerialization,
    /// The request stands.
    ReadAfterSerialization,
    /// Before the first attempt is asked for. It may write the request.
    ModifyBeforeRetryLoop,
    /// An attempt begins.
    ReadBeforeAttempt,
    /// Before the request is signed. It may write the request.
    ModifyBeforeSigning,
    /// The last one before that.
    ReadBeforeSigning,
    /// The request is signed.
    ReadAfterSigning,
    /// Before the request is sent. It may write the request.
    ModifyBeforeTransmit,
    /// The last one before that.
    ReadBeforeTransmit,
    /// The response came.
    ReadAfterTransmit,
    /// Before the response is read. It may write the response.
    ModifyBeforeDeserialization,
    /// The last one before that.
    ReadBeforeDeserialization,
    /// The response came to an output or a failure.
    ReadAfterDeserialization,
    /// The attempt ends, cut or not. It may write the outcome.
    ModifyBeforeAttemptCompletion,
    /// The last one of the attempt.
    ReadAfterAttempt,
    /// The operation ends. It may write the outcome.
    ModifyBeforeCompletion,
    /// The last one of the operation.
    ReadAfterExecution,
}

impl Hook {
    /// Each hook, in the order in which a run without a retry calls them.
    pub const ALL: [Hook; 20] = [
        Hook::ReadBeforeExecutionClient,
        Hook::ReadBeforeExecutionOperation,
        Hook::ModifyBeforeSerialization,
        Hook::ReadBeforeSerialization,
        Hook::ReadAfterSerialization,
        Hook::ModifyBeforeRetryLoop,
        Hook::ReadBeforeAttempt,
        Hook::ModifyBeforeSigning,
        Hook::ReadBeforeSigning,
        Hook::ReadAfterSigning,
        Hook::ModifyBeforeTransmit,
        Hook::ReadBeforeTransmit,
        Hook::ReadAfterTransmit,
        Hook::ModifyBeforeDeserialization,
        Hook::ReadBeforeDeserialization,
        Hook::ReadAfterDeserialization,
        Hook::ModifyBeforeAttemptCompletion,
        Hook::ReadAfterAttempt,
        Hook::ModifyBeforeCompletion,
        Hook::ReadAfterExecution,
    ];

    /// The hook's name in scripts and prints: that of the method of the Rust crate's `Intercept`.
    /// The two of `read_before_execution` say whose interceptors they are.
    pub fn name(self) -> &'static str
        ensures { result.now ≡ hook_text self }
    {
        match self.title().strip_prefix("Hook ") {
            Some(name) => name,
            None => "",
        }
    }

    /// The question that is asked there, as scripts and prints name it: its kind and the hook's
    /// name.
    pub fn title(self) -> &'static str
        ensures { result.now ≡ hook_title self }
    {
        self.row().0
    }

    /// The part of a run in which the hook is called.
    pub fn part(self) -> RunPart
        ensures { result ≡ part_of self }
    {
        self.row().1
    }

    // The table of hooks: the title and the part of each.
    fn row(self) -> (&'static str, RunPart)
        ensures title { result.0.now ≡ hook_title self }
        ensures part { result.1 ≡ part_of self }
    {
        match self {
            Hook::ReadBeforeExecutionClient => (
                "Hook read_before_execution client",
                RunPart::Configuration,
            ),
            Hook::ReadBeforeExecutionOperation => (
                "Hook read_before_execution operation",
                RunPart::Configuration,
            ),
            Hook::ModifyBeforeSerialization => ("Hook modify_before_serialization", RunPart::Front),
            Hook::ReadBeforeSerialization => ("Hook read_before_serialization", RunPart::Front),
            Hook::ReadAfterSerialization => ("Hook read_after_serialization", RunPart::Front),
            Hook::ModifyBeforeRetryLoop => ("Hook modify_before_retry_loop", RunPart::Front),
            Hook::ReadBeforeAttempt => ("Hook read_before_attempt", RunPart::Attempt),
            Hook::ModifyBeforeSigning => ("Hook modify_before_signing", RunPart::Attempt),
            Hook::ReadBeforeSigning => ("Hook read_before_signing", RunPart::Attempt),
            Hook::ReadAfterSigning => ("Hook read_after_signing", RunPart::Attempt),
            Hook::ModifyBeforeTransmit => ("Hook modify_before_transmit", RunPart::Attempt),
            Hook::ReadBeforeTransmit => ("Hook read_before_transmit", RunPart::Attempt),
            Hook::ReadAfterTransmit => ("Hook read_after_transmit", RunPart::Attempt),
            Hook::ModifyBeforeDeserialization => (
                "Hook modify_before_deserialization",
                RunPart::Attempt,
            ),
            Hook::ReadBeforeDeserialization => (
                "Hook read_before_deserialization",
                RunPart::Attempt,
            ),
            Hook::ReadAfterDeserialization => ("Hook read_after_deserialization", RunPart::Attempt),
            Hook::ModifyBeforeAttemptCompletion => (
                "Hook modify_before_attempt_completion",
                RunPart::Settle,
            ),
            Hook::ReadAfterAttempt => ("Hook read_after_attempt", RunPart::Settle),
            Hook::ModifyBeforeCompletion => ("Hook modify_before_completion", RunPart::Finish),
            Hook::ReadAfterExecution => ("Hook read_after_execution", RunPart::Finish),
        }
    }

    /// The hook that may have this title: titles are told apart by their lengths, and by one byte
    /// where lengths are equal. Whether it is so titled is still to be tested.
    pub fn likely(title: &[u8]) -> Hook {
        match title.len() {
            23 => match byte_at(title, 16) {
                b's' => Hook::ReadAfterSigning,
                _ => Hook::ReadAfterAttempt,
            },
            24 => match byte_at(title, 17) {
                b'a' => Hook::ReadBeforeAttempt,
                b's' => Hook::ReadBeforeSigning,
                _ => Hook::ReadAfterTransmit,
            },
            25 => match byte_at(title, 17) {
                b't' => Hook::ReadBeforeTransmit,
                _ => Hook::ReadAfterExecution,
            },
            26 => Hook::ModifyBeforeSigning,
            27 => Hook::ModifyBeforeTransmit,
            29 => match byte_at(title, 19) {
                b'r' => Hook::ModifyBeforeRetryLoop,
                b'c' => Hook::ModifyBeforeCompletion,
                _ => Hook::ReadAfterSerialization,
            },
            _ => likely_longer(title),
        }
    }
}

// The same, of titles of at least thirty bytes.
fn likely_longer(title: &[u8]) -> Hook {
    match title.len() {
        30 => Hook::ReadBeforeSerialization,
        31 => Hook::ReadAfterDeserialization,
        32 => match byte_at(title, 5) {
            b'm' => Hook::ModifyBeforeSerialization,
            _ => Hook::ReadBeforeDeserialization,
        },
        33 => Hook::ReadBeforeExecutionClient,
        34 => Hook::ModifyBeforeDeserialization,
        36 => Hook::ReadBeforeExecutionOperation,
        _ => Hook::ModifyBeforeAttemptCompletion,
    }
}

// The byte at this place, and 0 behind the last one.
fn byte_at(bytes: &[u8], place: usize) -> u8 {
    match bytes.get(place) {
        Some(byte) => *byte,
        None => 0,
    }
}
