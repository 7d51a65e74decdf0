//! A float spells nothing, wherever it stands in a script. A float is what is read of a number with
//! a point or an exponent, of -0, and of an integer beyond 64 bits. Each law is the contract of a
//! function without a body.
ghost use Rattle.laws_program.specs.Scripts.Floats.{FloatsSpellNothing};
ghost use Rattle.cli_replay.specs.Script.Replay as replay;
ghost use Rattle.cli_wait.specs.Script as wait;
ghost use Rattle.cli_waiters.specs.Script.Script as waiters;

/// A text with a float, in an array or a member at any depth, is no script of `replay`.
pub fn a_float_spells_no_script_of_replay()
    ensures { FloatsSpellNothing replay.script_at }
{}

/// A text with a float, in an array or a member at any depth, is no script of `wait`.
pub fn a_float_spells_no_script_of_wait()
    ensures { FloatsSpellNothing wait.script_at }
{}

/// A text with a float, in an array or a member at any depth, is no script of `waiters`.
pub fn a_float_spells_no_script_of_waiters()
    ensures { FloatsSpellNothing waiters.script_at }
{}
