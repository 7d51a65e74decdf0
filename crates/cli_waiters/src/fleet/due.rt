//! When the polls are due that waiters have open.
ghost use Rattle.std.specs.Prelude.{ℕ, ◌++◌, List};
ghost use Rattle.outside_scripted.specs.Wake.{IsNext};
ghost use Rattle.cli_waiters.specs.Fleet.Waiters.{open_dues};

use crate::fleet::places::Place;
use outside_scripted::wake::sooner_of;

/// The least moment with the polls of these waiters that are open.
pub fn sooner_of_all(next: Option<u64>, places: &[Place], moment: u64) -> Option<u64>
    ensures { (dues : List ℕ) → IsNext moment dues next →
        IsNext moment (dues ++ open_dues places.now) result }
{
    let mut least = next;
    for place in places {
        least = sooner_of(least, place.due, moment);
    }
    least
}
