//! Objects that have no member beside those that are named.
ghost use Rattle.std.specs.Prelude.{◌≡◌, map};
ghost use Rattle.std.specs.List.{list_any};
ghost use Rattle.json_forms.specs.View.{view, members_view};
ghost use Rattle.json_scripts.specs.Members.{is_among, is_name, members_all, only_among};
ghost use Rattle.json_forms.specs.Reading.{Reads};

use json_forms::read::{self, Member};
use json_forms::{ReadError, Value};

/// An object whose members each have one of these names. Which of them stand in it isn't asked.
#[tactic(auto, unfolding(crate::specs::Members::only_among))]
pub fn only_members(names: &[&str], value: &Value) -> Result<(), ReadError>
    ensures { Reads result (only_among (map (λ n. n.now) names.now) (view value.now)) }
{
    if all_among(names, read::members(value)?) {
        Ok(())
    } else {
        Err(ReadError::Refused)
    }
}

#[tactic(auto, using(crate::proofs::EachNamed::each_named))]
fn all_among(names: &[&str], members: &[Member]) -> bool
    ensures { result ≡ members_all (is_among (map (λ n. n.now) names.now))
        (members_view members.now) }
{
    for member in members {
        if !is_among(names, member.0) {
            return false;
        }
    }
    true
}

// Whether the word is one of the names.
fn is_among(names: &[&str], word: &str) -> bool
    ensures { result ≡ is_among (map (λ n. n.now) names.now) word.now }
{
    is_one_of(names, word)
}

fn is_one_of(names: &[&str], word: &str) -> bool
    ensures { result ≡ list_any (λ n. is_name n.now word.now) names.now }
{
    for name in names {
        if word == *name {
            return true;
        }
    }
    false
}
