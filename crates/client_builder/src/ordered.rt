//! The order in which a layer's keys stand in a client's step of the configuration.
ghost use Rattle.std.specs.Prelude.{◌≡◌, [], filter, if◌then◌else◌, IfOk, OnOk};
ghost use Rattle.smithy_context.specs.Layer.{merged, put_entry};
ghost use Rattle.client_builder.specs.ClientLayer.{in_order, is_placed};

use smithy_context::{Layer, LayerEntry, SettingKey};
use smithy_types::OutOfMemory;
use std::alloc::Global;

/// The layer with its keys in the order of settings, and the caller's own keys behind them in the
/// order in which they were put.
pub(crate) fn in_order(alloc: Global, layer: &Layer) -> Result<Layer, OutOfMemory>
    ensures { IfOk result (λ ordered. ordered ≡ merged [] (in_order layer.now)) }
{
    let mut ordered = Layer::new();
    for place in 0..SettingKey::PLACES {
        put_placed(&mut ordered, alloc, layer.entries(), place)?;
    }
    Ok(ordered)
}

// Puts the entries whose keys have this place.
fn put_placed(
    ordered: &mut Layer,
    alloc: Global,
    entries: &[LayerEntry],
    place: u8,
) -> Result<(), OutOfMemory>
    ensures { OnOk result (ordered.new ≡
        merged ordered.old (filter (is_placed place) entries.now)) }
{
    for entry in entries {
        put_if_placed(ordered, alloc, entry, place)?;
    }
    Ok(())
}

// Puts the entry where its key has this place.
fn put_if_placed(
    ordered: &mut Layer,
    alloc: Global,
    entry: &LayerEntry,
    place: u8,
) -> Result<(), OutOfMemory>
    ensures { OnOk result (ordered.new ≡
        (if is_placed place entry.now then put_entry ordered.old entry.now else ordered.old)) }
{
    if entry.key.place() == place {
        return ordered.set(alloc, entry.clone()?);
    }
    Ok(())
}
