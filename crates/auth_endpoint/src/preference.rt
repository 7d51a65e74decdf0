//! The order in which auth options are looked at.
ghost use Rattle.std.specs.Prelude.{◌≡◌, ◌++◌, not, option_copied};
ghost use Rattle.std.specs.List.{filter, count_by};
ghost use Rattle.auth_endpoint.specs.Choice.{is_named, is_id, reprioritized};

use crate::choice::is_named;
use smithy_types::{List, Text};
use std::alloc::Global;

// Moves the options of this id to the end, in their order.
fn move_back(options: &mut Vec<Text>, id: &str)
    ensures { options.new.items
        ≡ filter (λ o. not (is_id id.now o)) options.old.items
        ++ filter (is_id id.now) options.old.items }
{
    let mut kept = 0;
    for _ in 0..options.len() {
        if options[kept].as_str() == id {
            let option = options.remove(kept);
            options.push_reserved(option);
        } else {
            kept += 1;
        }
    }
}

// How many options the preference doesn't name.
fn count_unnamed(options: &[Text], names: &[Text]) -> usize
    ensures { result ≡ count_by (λ o. not (is_named names.now o)) options.now }
{
    options
        .iter()
        .filter(|option| !is_named(names, option.as_str()))
        .count()
}

/// The options that the preference names come first, by their last place in it, and the others
/// keep their order. It takes no memory.
pub fn reprioritize(
    alloc: Global,
    options: List<Text>,
    preference: Option<&List<Text>>,
) -> List<Text>
    ensures { result ≡ reprioritized (option_copied preference.entry) options }
{
    let Some(names) = preference else {
        return options;
    };
    let names = names.as_slice();
    let mut options = options.into_vec(alloc);
    let unnamed = count_unnamed(options.as_slice(), names);
    for (place, name) in names.iter().enumerate() {
        // A name that comes again waits for its last place.
        if !is_named(&names[place + 1..], name.as_str()) {
            move_back(&mut options, name.as_str());
        }
    }
    options.rotate_left(unnamed);
    List::from_vec(options)
}
