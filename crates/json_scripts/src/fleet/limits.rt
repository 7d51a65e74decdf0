//! Limits of what a fleet script may hold.
ghost use Rattle.std.specs.Prelude.{◌≡◌, nat_le, sum_by};
ghost use Rattle.std.specs.List.{list_all};
ghost use Rattle.json_scripts.specs.Fleet.Limits.{caller_fits, caller_fuel, caller_runs};
ghost use Rattle.json_scripts.specs.Fleet.Limits.{fleet_script_fits};

use crate::client::limits::{fuel_left, invocations_fit};
use crate::client::{capacity_fits, client_fits};
use crate::fleet::terms::{CallerRecord, FleetScript};
use crate::{FUEL_LIMIT, left_of};

/// The most callers of a script.
const CALLER_LIMIT: usize = 16;

/// The most invocations of a script's callers together.
const INVOCATION_LIMIT: u64 = 10_000;

// Whether a caller's texts and heads are within their limits.
#[tactic(auto, unfolding(crate::specs::Fleet::Limits::caller_fits))]
fn caller_fits(caller: &CallerRecord) -> bool
    ensures { result ≡ caller_fits caller.now }
{
    client_fits(&caller.client) && invocations_fit(caller.invocations.as_slice())
}

fn each_caller_fits(callers: &[CallerRecord]) -> bool
    ensures { result ≡ list_all caller_fits callers.now }
{
    callers.iter().all(|caller| caller_fits(caller))
}

// Whether the callers' invocations together are within their limit.
#[tactic(auto, using(crate::proofs::client::Sums::sums))]
fn runs_fit(callers: &[CallerRecord]) -> bool
    ensures { result ≡ nat_le (sum_by caller_runs callers.now) 10000 }
{
    let mut room = INVOCATION_LIMIT;
    for caller in callers {
        match left_of(room, caller.invocations.len() as u64) {
            Some(left) => room = left,
            None => return false,
        }
    }
    true
}

// Whether the callers' fuel together is within its limit.
#[tactic(auto, using(crate::proofs::client::Sums::sums))]
fn fuel_fits(callers: &[CallerRecord]) -> bool
    ensures { result ≡ nat_le (sum_by caller_fuel callers.now) 100000 }
{
    let mut room = FUEL_LIMIT;
    for caller in callers {
        match fuel_left(room, caller.invocations.as_slice()) {
            Some(rest) => room = rest,
            None => return false,
        }
    }
    true
}

/// Whether the capacity, texts, heads, the number of callers, that of their invocations and the
/// fuel of these together are within their limits.
#[tactic(auto, unfolding(crate::specs::Fleet::Limits::fleet_script_fits))]
pub fn fleet_script_fits(script: &FleetScript) -> bool
    ensures { result ≡ fleet_script_fits script.now }
{
    let callers = script.callers.as_slice();
    capacity_fits(&script.bucket)
        && each_caller_fits(callers)
        && callers.len() <= CALLER_LIMIT
        && runs_fit(callers)
        && fuel_fits(callers)
}
