//! Clients whose outside always has sleeps, as a waiter wants it.

use client_components::ClientTypes;
use outside::Outside;
use outside_scripted::ScriptedOutside;

/// An outside that always has sleeps.
pub trait SleepingOutside: Outside {
    ghost use Rattle.std.specs.Prelude.{◌≡◌, true};

    /// It always has sleeps.
    ghost always: { (outside : Self) → Self.sleeps outside ≡ true };
}

impl SleepingOutside for ScriptedOutside {
    ghost use Rattle.std.specs.Prelude.{refl};

    ghost always = { λ _. refl };
}

/// The types of a client whose outside always has sleeps. Every family of types with such an outside
/// is one, and brings nothing for it.
pub trait SleepingTypes: ClientTypes {
    ghost use Rattle.std.specs.Prelude.{◌≡◌, true};

    /// Its outside always has sleeps.
    ghost always: { (outside : Self.Outside) → Self.Outside.sleeps outside ≡ true };
}

impl<T: ClientTypes> SleepingTypes for T
where
    T::Outside: SleepingOutside,
{
    ghost always = { T.Outside.always };
}
