//! What a host does to a client between two stretches of its run.
ghost use Rattle.std.specs.Prelude.{◌≡◌, OnOk};
ghost use Rattle.host_session.specs.Handing.{all_handed, fed};

use outside_hosted::{HostEvent, HostedOutside};
use smithy_types::{List, OutOfMemory};
use std::alloc::Global;

/// From here on it is this moment, and these came since, in order. What isn't of an open call or
/// load is let go.
pub fn feed(
    alloc: Global,
    outside: &mut HostedOutside,
    moment: u64,
    events: List<HostEvent>,
) -> Result<(), OutOfMemory>
    ensures { OnOk result (outside.new ≡ fed moment events outside.old) }
{
    outside.move_to(moment);
    hand_in_all(alloc, outside, events)?;
    Ok(())
}

// Hands in each event, in order.
#[tactic(auto, using(crate::proofs::HandingLemmas::handed_more))]
fn hand_in_all(
    alloc: Global,
    outside: &mut HostedOutside,
    events: List<HostEvent>,
) -> Result<(), OutOfMemory>
    ensures { OnOk result (outside.new ≡ all_handed events outside.old) }
{
    for event in events.into_vec(alloc) {
        outside.hand_in(alloc, event)?;
    }
    Ok(())
}
