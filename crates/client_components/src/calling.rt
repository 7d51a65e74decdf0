//! Start, Wait, Load, Transmit, Body, Abandon and Park.
ghost use Rattle.std.specs.Prelude.{◌≡◌, IfOk, None, OnErr};
ghost use Rattle.client_call.specs.Sleeping.{with_sleep};
ghost use Rattle.client_components.specs.Lacking.{CalledOutside};
ghost use Rattle.client_components.specs.Calling.{Abandons, Parks, Reads, Starts, Transmits, Waits};
ghost use Rattle.client_components.specs.Calling.{is_choose};

use crate::{ClientTypes, Parts};
use client_call::body::body;
use client_call::ending::abandon;
use client_call::park::park;
use client_call::sleeping::{start, wait};
use client_call::transmit::transmit;
use run_grammar::{Abandonable, Answer, Role};
use smithy_context::Settings;
use smithy_types::{HttpRequest, HttpResponse, OutOfMemory, Shared};
use std::alloc::Global;

impl<T: ClientTypes> Parts<T> {
    /// Starts the sleep of a role.
    pub fn start(
        &mut self,
        alloc: Global,
        role: Role,
        nanos: Option<u64>,
    ) -> Result<Answer, OutOfMemory>
        ensures ok { IfOk result (λ a. Starts T.Outside.makes self.old role nanos a self.new) }
        ensures err { OnErr result (CalledOutside T.Outside.makes self.old self.new
            × (self.new ≡ record self.old {
              sleeps = with_sleep role None self.old.sleeps;
              outside = self.new.outside;
            })) }
    {
        start(
            alloc,
            self.given.sleep_impl,
            &mut self.sleeps,
            &mut self.outside,
            role,
            nanos,
        )
    }

    /// Asks whether the sleep of a role is over.
    pub fn wait(&mut self, role: Role) -> Answer
        ensures { Waits T.Outside.makes self.old role result self.new }
    {
        wait(&self.sleeps, &mut self.outside, role)
    }

    /// Sends the request, and asks for the response.
    pub fn transmit(
        &mut self,
        alloc: Global,
        settings: &Settings,
        request: &Option<Shared<HttpRequest>>,
    ) -> Result<Answer, OutOfMemory>
        ensures ok { IfOk result (λ a. Transmits T.Outside.makes T.Outside.sleeps
            self.old settings.now request.now a self.new) }
        ensures err { OnErr result (CalledOutside T.Outside.makes self.old self.new
            × (self.new ≡ record self.old { call = self.new.call; outside = self.new.outside })) }
    {
        transmit(alloc, settings, request, &mut self.call, &mut self.outside)
    }

    /// Reads the response's body on.
    pub fn body(
        &mut self,
        alloc: Global,
        settings: &Settings,
        response: &Option<Shared<HttpResponse>>,
    ) -> Result<Answer, OutOfMemory>
        ensures ok { IfOk result (λ a. Reads T.Outside.makes T.Outside.sleeps
            self.old settings.now response.now a self.new) }
        ensures err { OnErr result (CalledOutside T.Outside.makes self.old self.new
            × (self.new ≡ record self.old { call = self.new.call; outside = self.new.outside })) }
    {
        body(alloc, settings, response, &mut self.call, &mut self.outside)
    }

    /// Gives up what is pending.
    pub fn abandon(&mut self, abandoned: Abandonable) -> Answer
        ensures { Abandons T.Outside.makes self.old abandoned result self.new }
    {
        if is_choose(abandoned) {
            self.identities.end_choice(&mut self.outside);
            return Answer::Abandoned;
        }
        abandon(
            abandoned,
            &mut self.sleeps,
            &mut self.call,
            &mut self.outside,
        )
    }

    /// Lets the outside wait.
    pub fn park(&mut self) -> Answer
        ensures { Parks T.Outside.makes self.old result self.new }
    {
        park(&mut self.outside)
    }
}

// Whether a choice is given up.
fn is_choose(abandoned: Abandonable) -> bool
    ensures { result ≡ is_choose abandoned }
{
    matches!(abandoned, Abandonable::Choose)
}
