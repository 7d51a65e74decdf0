//! Names of which each stands once.
ghost use Rattle.std.specs.Prelude.{◌≡◌, ◌++◌, ◌∷◌, [], true, not, nat_eq, IfOk, IfErr};
ghost use Rattle.std.specs.Cmp.Lexicographic.{pointwise};
ghost use Rattle.std.specs.List.{list_any};
ghost use Rattle.json_forms.specs.declared.read.ReadError.TheVariants.{Memory};
ghost use Rattle.json_forms.specs.View.{view, items_view};
ghost use Rattle.json_forms.specs.Reading.{Reads, Gives};
ghost use Rattle.json_forms.specs.Lists.{name_at, named_once};

use crate::{ReadError, Value, read};
use indexmap::IndexSet;
use std::alloc::Global;
use std::marker::Model;

// Names that were seen, each once.
struct Names {
    seen: IndexSet<String>,
}

// Written out, so that a drop is one call wherever names are dropped.
impl Drop for Names {
    fn drop(self) {
        let Names { seen: _ } = self;
    }
}

impl Model for Names {
    ghost use Rattle.std.specs.Prelude.{List, ℕ, map, string_bytes};

    ghost Value = { List (List ℕ) };

    ghost view = { λ n. map string_bytes n.seen.keys };
}

impl Names {
    fn new(alloc: Global) -> Names
        ensures { result ≡ [] }
    {
        Names {
            seen: IndexSet::new(alloc),
        }
    }

    // Adds a name, and answers whether it is new.
    #[tactic(auto, using(crate::proofs::Seen::seen_names))]
    fn add(&mut self, alloc: Global, name: &str) -> Result<bool, ReadError>
        ensures added { IfOk result (λ b. b ≡ not (list_any (pointwise nat_eq name.now) self.old)) }
        ensures kept { IfOk result (λ b. b ≡ true → self.new ≡ self.old ++ name.now ∷ []) }
        ensures err { IfErr result (λ e. e ≡ Memory) }
    {
        let name = String::from_str(alloc, name)?;
        let (_, is_new) = self.seen.insert_full(name)?;
        Ok(is_new)
    }
}

/// Refuses items two of which have the same name.
#[tactic(auto, using(crate::proofs::Fresh::fresh_names))]
pub fn named_once(alloc: Global, items: &[Value]) -> Result<(), ReadError>
    ensures { Reads result (named_once (items_view items.now)) }
{
    let mut names = Names::new(alloc);
    for value in items {
        match name_in(value) {
            Ok(name) => {
                if !names.add(alloc, name)? {
                    return Err(ReadError::Refused);
                }
            }
            Err(error) => return Err(error),
        }
    }
    Ok(())
}

// The name that a pair begins with.
#[tactic(auto, unfolding(crate::specs::Lists::name_at))]
fn name_in<'t>(value: &Value<'t>) -> Result<&'t str, ReadError>
    ensures { Gives (λ s. s.now) result (name_at (view value.now)) }
{
    let (name, _) = read::pair(value)?;
    read::str(name)
}
