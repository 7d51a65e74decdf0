//! How the program ends.
ghost use Rattle.std.specs.Prelude.{◌≡◌};
ghost use Rattle.cli_shell.specs.Status.{number_of, status_of, printed_status, refused_status};
ghost use Rattle.cli_shell.specs.Status.{shell_status};

/// How the program ended. Its number is the exit status.
#[derive(Clone, Copy, Debug, PartialEq, Eq)]
pub enum Status {
    /// The command was done. The last answer of a run, where there is one, is an output, or the
    /// request at a stop point.
    Ok,
    /// The words aren't a command.
    BadWords,
    /// The input isn't a script of the command.
    BadScript,
    /// The source failed.
    ReadFault,
    /// The sink failed.
    WriteFault,
    /// An allocation was refused.
    OutOfMemory,
    /// The input, or a number in it or in the words, passes its limit.
    TooLarge,
    /// The command isn't built yet.
    NotBuilt,
    /// The last answer is an error of the operation.
    SdkError,
    /// The last answer is that the fuel was used up.
    Unfinished,
    /// The last answer is a payload of another type.
    WrongType,
    /// The text isn't the print of a run.
    CheckNo,
    /// The waiter ended with an error.
    WaiterFailed,
}

/// What a whole print came to, by the command's own measure.
#[derive(Clone, Copy, Debug, PartialEq, Eq)]
pub enum PrintStatus {
    /// The command was done. The last answer of a run, where there is one, is an output, or the
    /// request at a stop point.
    Ok,
    /// The last answer is an error of the operation.
    SdkError,
    /// The last answer is that the fuel was used up.
    Unfinished,
    /// The last answer is a payload of another type.
    WrongType,
    /// The text isn't the print of a run.
    CheckNo,
    /// The waiter ended with an error.
    WaiterFailed,
}

/// Why a command prints nothing.
#[derive(Clone, Copy, Debug, PartialEq, Eq)]
pub enum Refusal {
    /// The bytes are no script of the command.
    BadScript,
    /// A number in the script, or in the words, passes its limit.
    TooLarge,
    /// The command isn't built yet.
    NotBuilt,
}

/// What the shell ends with by itself, whatever the command.
#[derive(Clone, Copy, Debug, PartialEq, Eq)]
pub enum ShellStatus {
    /// The words aren't a command.
    BadWords,
    /// The source failed.
    ReadFault,
    /// The sink failed.
    WriteFault,
    /// An allocation was refused.
    OutOfMemory,
    /// There are more bytes than an input may have.
    LongInput,
}

/// How a command ended, and whose doing that was.
#[derive(Clone, Copy, Debug, PartialEq, Eq)]
pub enum Ended {
    /// The whole print was written.
    Printed(PrintStatus),
    /// The command prints nothing.
    Refused(Refusal),
    /// The shell ended it.
    Shell(ShellStatus),
}

impl Ended {
    /// The status of the program.
    pub fn status(self) -> Status
        ensures { result ≡ status_of self }
    {
        match self {
            Ended::Printed(status) => status.status(),
            Ended::Refused(refusal) => refusal.status(),
            Ended::Shell(status) => status.status(),
        }
    }
}

impl PrintStatus {
    /// The status of the program.
    pub fn status(self) -> Status
        ensures { result ≡ printed_status self }
    {
        match self {
            PrintStatus::Ok => Status::Ok,
            PrintStatus::SdkError => Status::SdkError,
            PrintStatus::Unfinished => Status::Unfinished,
            PrintStatus::WrongType => Status::WrongType,
            PrintStatus::CheckNo => Status::CheckNo,
            PrintStatus::WaiterFailed => Status::WaiterFailed,
        }
    }
}

impl Refusal {
    /// The status of the program.
    pub fn status(self) -> Status
        ensures { result ≡ refused_status self }
    {
        match self {
            Refusal::BadScript => Status::BadScript,
            Refusal::TooLarge => Status::TooLarge,
            Refusal::NotBuilt => Status::NotBuilt,
        }
    }
}

impl ShellStatus {
    /// The status of the program. An input that is too long is too large.
    pub fn status(self) -> Status
        ensures { result ≡ shell_status self }
    {
        match self {
            ShellStatus::BadWords => Status::BadWords,
            ShellStatus::ReadFault => Status::ReadFault,
            ShellStatus::WriteFault => Status::WriteFault,
            ShellStatus::OutOfMemory => Status::OutOfMemory,
            ShellStatus::LongInput => Status::TooLarge,
        }
    }
}

impl Status {
    /// The exit status.
    pub fn number(self) -> u8
        ensures { result ≡ number_of self }
    {
        match self {
            Status::Ok => 0,
            Status::BadWords => 1,
            Status::BadScript => 2,
            Status::ReadFault => 3,
            Status::WriteFault => 4,
            Status::OutOfMemory => 5,
            Status::TooLarge => 6,
            Status::NotBuilt => 7,
            Status::SdkError => 10,
            Status::Unfinished => 11,
            Status::WrongType => 12,
            Status::CheckNo => 13,
            Status::WaiterFailed => 20,
        }
    }
}
