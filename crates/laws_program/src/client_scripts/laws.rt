//! A float spells nothing, wherever it stands in a script with clients. A float is what is read of
//! a number with a point or an exponent, of -0, and of an integer beyond 64 bits. Each law is the
//! contract of a function without a body.
ghost use Rattle.laws_program.specs.Scripts.Floats.{FloatsSpellNothing};
ghost use Rattle.json_scripts.specs.Client.Script.{client_script_at};
ghost use Rattle.json_scripts.specs.Fleet.Script.{fleet_script_at};

/// A text with a float, in an array or a member at any depth, is no script of `client`.
pub fn a_float_spells_no_script_of_client()
    ensures { FloatsSpellNothing client_script_at }
{}

/// A text with a float, in an array or a member at any depth, is no script of `fleet`.
pub fn a_float_spells_no_script_of_fleet()
    ensures { FloatsSpellNothing fleet_script_at }
{}
