//! What a host is told.
ghost use Rattle.std.specs.Prelude.{◌≡◌, IfOk, OnOk, OnErr};
ghost use Rattle.outside_scripted.specs.Wake.{IsNext};
ghost use Rattle.outside_hosted.specs.Telling.{after_told, known_load, told_load, told_of};

use crate::call::Order;
use crate::hosted_outside::HostedOutside;
use crate::load::HostLoad;
use outside_scripted::wake::earliest;
use smithy_types::{OutOfMemory, Text};
use std::mem;

/// The load that is open.
#[derive(Drop)]
pub struct ToldLoad {
    /// Of which auth scheme.
    pub id: Text,
    /// Whether the host wasn't told of it before.
    pub is_new: bool,
}

/// What is open outside, and what of it is new.
#[derive(Drop)]
pub struct Told {
    /// The number of the call that is open. The host gives every other one up.
    pub call: Option<u64>,
    /// What is to be sent for it, where that is new.
    pub order: Option<Order>,
    /// The load that is open. The host gives every other one up.
    pub load: Option<ToldLoad>,
    /// The last attempt whose connection isn't to be used again, where that is new.
    pub poisoned: Option<u64>,
    /// The next moment at which a sleep is over.
    pub wake: Option<u64>,
}

impl HostedOutside {
    /// The least moment above the present one at which a sleep is over.
    pub fn next_due(&self) -> Option<u64>
        ensures { IsNext self.now.moment self.now.sleeps result }
    {
        earliest(self.sleeps.as_slice(), self.moment)
    }

    /// Tells what is open. What is new is told once. An error changes nothing.
    pub fn tell(&mut self) -> Result<Told, OutOfMemory>
        ensures told { IfOk result (λ told. told ≡ told_of told.wake self.old) }
        ensures wake { IfOk result (λ told. IsNext self.old.moment self.old.sleeps told.wake) }
        ensures after { OnOk result (self.new ≡ after_told self.old) }
        ensures err { OnErr result (self.new ≡ self.old) }
    {
        let load = told_load(&self.load)?;
        let wake = self.next_due();
        let call = self.call.number();
        let order = self.call.take_order();
        let poisoned = mem::replace(&mut self.poisoned, None);
        self.load = known_load(mem::replace(&mut self.load, None));
        self.is_parked = false;
        Ok(Told {
            call,
            order,
            load,
            poisoned,
            wake,
        })
    }
}

// What is told of the load.
fn told_load(load: &Option<HostLoad>) -> Result<Option<ToldLoad>, OutOfMemory>
    ensures { IfOk result (λ told. told ≡ told_load load.now) }
{
    match load {
        Some(load) => Ok(Some(ToldLoad {
            id: load.id.clone()?,
            is_new: !load.is_told,
        })),
        None => Ok(None),
    }
}

// The load, of which the host was told.
fn known_load(load: Option<HostLoad>) -> Option<HostLoad>
    ensures { result ≡ known_load load }
{
    match load {
        Some(load) => {
            let HostLoad { id, answer, .. } = load;
            Some(HostLoad {
                id,
                is_told: true,
                answer,
            })
        }
        None => None,
    }
}
