//! What holds of all scripted waiters. The function does nothing: its contract is the law.
ghost use Rattle.waiter_fleet.specs.Laws.{IsSteady};
ghost use Rattle.cli_waiters.specs.Fleet.Makes.{Does};

/// What scripted waiters answer, and what they are then, follows from what they were.
pub fn answers_are_determined()
    ensures { IsSteady Does }
{}
