//! How many members an object has. A name that stands twice counts once.
ghost use Rattle.std.specs.Prelude.{◌≡◌, ◌==◌, nat_eq, IfOk};
ghost use Rattle.std.specs.Cmp.Lexicographic.{pointwise};
ghost use Rattle.std.specs.List.{list_any};
ghost use Rattle.json_forms.specs.Forms.{member_count};
ghost use Rattle.json_forms.specs.View.{members_view};

use crate::read::Member;
use smithy_types::OutOfMemory;
use std::alloc::Global;

/// Whether there are so many members of different names.
#[tactic(auto, using(crate::proofs::Counting::count_end))]
pub fn has_members(alloc: Global, count: usize, members: &[Member]) -> Result<bool, OutOfMemory>
    ensures { IfOk result (λ b. b ≡ (member_count (members_view members.now) == count)) }
{
    let mut names = Vec::new(alloc);
    for member in members {
        if !is_among(names.as_slice(), member.0) {
            if names.len() == count {
                return Ok(false);
            }
            names.push(member.0)?;
        }
    }
    Ok(names.len() == count)
}

// Whether the name is one of these.
fn is_among(names: &[&str], name: &str) -> bool
    ensures { result ≡ list_any (λ other. pointwise nat_eq other.now name.now) names.now }
{
    names.iter().any(|other| *other == name)
}
