//! Asking until there is an answer or the fuel is spent.
ghost use Rattle.std.specs.Prelude.{◌≡◌, ◌<◌, ◌≤◌, ℕ, None, Ok, false, IfOk, OnSome};
ghost use Rattle.waiter_fleet.specs.Steps.{Spends, ask_calls, wake_calls};

use crate::event::Seen;
use crate::world::FleetWorld;
use smithy_types::{AcceptorState, OutOfMemory};
use std::alloc::Global;

/// Polls the operation of a waiter until it answers, none where the fuel is spent before.
pub(crate) fn answered<W: FleetWorld>(
    alloc: Global,
    waiter: u32,
    world: &mut W,
    fuel: &mut u64,
) -> Result<Option<(Seen, AcceptorState)>, OutOfMemory>
    ensures calls { (times : ℕ) × Spends W.does world.old fuel.old (ask_calls waiter times result)
        world.new fuel.new }
    ensures all_spent { result ≡ Ok None → fuel.new ≡ 0 }
    ensures spends { IfOk result (λ found. OnSome found (fuel.new < fuel.old)) }
{
    loop {
        if *fuel == 0 {
            return Ok(None);
        }
        match world.poll(alloc, waiter) {
            Err(refused) => return Err(refused),
            Ok(answer) => {
                *fuel -= 1;
                match answer {
                    Some(found) => return Ok(Some(found)),
                    None => world.park(),
                }
            }
        }
    }
}

/// Asks a sleep until it is over, and answers whether it is.
fn slept<W: FleetWorld>(sleep: u64, world: &mut W, fuel: &mut u64) -> bool
    ensures calls { (times : ℕ) × Spends W.does world.old fuel.old
        (wake_calls (Some sleep) times result) world.new fuel.new }
    ensures all_spent { result ≡ false → fuel.new ≡ 0 }
{
    while *fuel > 0 {
        *fuel -= 1;
        if world.ready(sleep) {
            return true;
        }
        world.park();
    }
    false
}

/// Waits until the sleep that a waiter may have open is over, and answers whether it is.
pub(crate) fn awake<W: FleetWorld>(sleep: Option<u64>, world: &mut W, fuel: &mut u64) -> bool
    ensures calls { (times : ℕ) × Spends W.does world.old fuel.old (wake_calls sleep times result)
        world.new fuel.new }
    ensures all_spent { result ≡ false → fuel.new ≡ 0 }
{
    match sleep {
        Some(sleep) => slept(sleep, world, fuel),
        None => true,
    }
}
