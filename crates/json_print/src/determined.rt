//! How a run ends is determined by its entries. The function does nothing: its contract is the law.

ghost use Rattle.json_print.specs.Determined.Endings.{EndingsAreDetermined};

/// A run of one head and the same entries ends in one way.
pub fn endings_are_determined()
    ensures { EndingsAreDetermined }
{}
