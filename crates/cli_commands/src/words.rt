//! The words of a command line.
ghost use Rattle.std.specs.Prelude.{◌≡◌, Some};
ghost use Rattle.cli_commands.specs.Words.{number_word, digits_number, with_digit, one_word};
ghost use Rattle.cli_commands.specs.Words.{command_of, option_of_client};

use smithy_types::Text;

/// What the program is asked to do.
#[derive(Clone, Copy, Debug, PartialEq, Eq)]
pub enum Command {
    /// Prints how the program is called.
    Help,
    /// Prints the program's version.
    Version,
    /// Replays one run from a script of answers.
    Replay,
    /// Runs clients against a scripted outside.
    Client,
    /// The same, with the moments of the entries.
    Moments,
    /// Runs a waiter.
    Wait,
    /// Runs many waiters under one bucket.
    Waiters,
    /// Runs clients in threads over one bucket.
    Fleet,
    /// Serves a host.
    Serve,
    /// Tells whether a text is the print of a run.
    Check,
    /// Makes a client script and runs it.
    Make {
        /// How many invocations it has.
        count: u64,
        /// What its generator is seeded with.
        seed: u64,
    },
}

/// The command of these words. None where they are no command.
pub fn command_in(words: &[Text]) -> Option<Command>
    ensures { result ≡ command_of words.now }
{
    match words {
        [word] => named_command(word.as_str()),
        [word, option] if word.as_str() == "client" => option_of_client(option.as_str()),
        [word, count, seed] if word.as_str() == "make" => {
            let count = decimal(count.as_str().as_bytes())?;
            let seed = decimal(seed.as_str().as_bytes())?;
            Some(Command::Make { count, seed })
        }
        _ => None,
    }
}

// The command that this word alone is.
#[tactic(auto, unfolding(crate::specs::Words::one_word))]
fn named_command(word: &str) -> Option<Command>
    ensures { result ≡ one_word word.now }
{
    match word {
        "--help" => Some(Command::Help),
        "--version" => Some(Command::Version),
        "replay" => Some(Command::Replay),
        "client" => Some(Command::Client),
        "wait" => Some(Command::Wait),
        "waiters" => Some(Command::Waiters),
        "fleet" => Some(Command::Fleet),
        "serve" => Some(Command::Serve),
        "check" => Some(Command::Check),
        _ => None,
    }
}

// The command `client` with this option.
#[tactic(auto, unfolding(crate::specs::Words::option_of_client))]
fn option_of_client(option: &str) -> Option<Command>
    ensures { result ≡ option_of_client option.now }
{
    match option {
        "--moments" => Some(Command::Moments),
        _ => None,
    }
}

// Decimal digits that fit a u64, without a leading zero.
#[tactic(auto, unfolding(crate::specs::Words::number_word))]
fn decimal(digits: &[u8]) -> Option<u64>
    ensures { result ≡ number_word digits.now }
{
    if digits.is_empty() {
        return None;
    }
    if digits.len() > 1 && digits[0] == b'0' {
        return None;
    }
    number_of_digits(digits)
}

// The number of decimal digits, where it fits a u64.
#[tactic(auto, using(crate::proofs::Digits::digits))]
fn number_of_digits(digits: &[u8]) -> Option<u64>
    ensures { result ≡ digits_number 0 digits.now }
{
    let mut number: u64 = 0;
    for digit in digits {
        number = with_digit(number, *digit)?;
    }
    Some(number)
}

// The number with a decimal digit more, where it fits a u64.
#[tactic(auto, unfolding(crate::specs::Words::with_digit))]
fn with_digit(front: u64, digit: u8) -> Option<u64>
    ensures { result ≡ with_digit front digit }
{
    if digit < b'0' || b'9' < digit {
        return None;
    }
    let value = (digit - b'0') as u64;
    if front > (u64::MAX - value) / 10 {
        return None;
    }
    Some(front * 10 + value)
}
