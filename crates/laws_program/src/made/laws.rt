//! A made script is one that the reader of client scripts reads. The law is the contract of a
//! function without a body.
ghost use Rattle.std.specs.Prelude.{◌≡◌, ◌≤◌, ℕ, length, true};
ghost use Rattle.json_scripts.specs.Client.Limits.{client_script_fits};
ghost use Rattle.json_scripts.specs.Client.Script.{IsClientScript};
ghost use Rattle.json_scripts.specs.Workload.Made.{made_script};
ghost use Rattle.laws_program.specs.Made.Spelling.{made_text};

/// There is a text of which the reader of client scripts reads exactly the script that is made of
/// this number of invocations and this seed. It passes no limit of such scripts, and the text is no
/// longer than what the program reads of its input.
pub fn made_scripts_are_read()
    ensures read { (count seed : ℕ) → count ≤ 1000
        → IsClientScript (made_text count seed) (made_script count seed) }
    ensures fits { (count seed : ℕ) → count ≤ 1000
        → client_script_fits (made_script count seed) ≡ true }
    ensures short { (count seed : ℕ) → count ≤ 1000
        → length (made_text count seed) ≤ 16777216 }
{}
