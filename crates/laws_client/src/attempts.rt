//! What the attempts of every whole run have behind them, and how many there are. The functions do
//! nothing: their contracts are the laws.

ghost use Rattle.laws_client.specs.Attempts.Deciding.{AttemptsAreBounded, FurtherAttemptsAreDecided};

/// Where a whole run begins n + 2 attempts, it has a decision for a further attempt that was asked
/// of attempt n + 1 or a later one. Numbers of attempts stop at `u64::MAX`.
pub fn further_attempts_are_decided()
    ensures { FurtherAttemptsAreDecided }
{}

/// Where a whole run's decisions for a further attempt are asked of attempts below n alone, it
/// begins at most n attempts, or one where n is 0.
pub fn attempts_are_bounded()
    ensures { AttemptsAreBounded }
{}
