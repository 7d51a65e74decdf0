//! The outside itself.
ghost use Rattle.std.specs.Prelude.{◌≡◌, [], None, false, slice_get, IfOk};
ghost use Rattle.smithy_context.specs.Settings.{loaded};
ghost use Rattle.outside_hosted.specs.Body.{behind};
ghost use Rattle.outside_hosted.specs.Order.{capture_of, order_of, timeouts_of};
ghost use Rattle.outside_hosted.specs.Words.{seeded};
ghost use Rattle.outside_hosted.specs.Makes.{Flows, Hands, Loads, has_news, raised};

use crate::body::HostBody;
use crate::call::{HostCall, Order};
use crate::events::{HostFrame, HostIdentity, HostReply};
use crate::load::{HostLoad, has_news as load_has_news};
use outside::{IdentityPoll, Outside, Sent};
use outside_scripted::Sleeps;
use rand_core::SeedableRng;
use rand_core::utils::NextWord;
use rand_pcg::Pcg64;
use smithy_context::{Setting, SettingKey, Settings};
use smithy_types::{Body, HttpRequest, HttpResponse, OutOfMemory, Polled, TimeoutConfig, Timers};
use std::alloc::Global;
use std::mem;

/// An outside that its host feeds.
#[derive(Drop)]
pub struct HostedOutside {
    /// The present moment, as the host last told it.
    pub moment: u64,
    /// What random words are drawn from.
    pub generator: Pcg64,
    /// The sleeps that are open.
    pub sleeps: Sleeps,
    /// The call that is open.
    pub call: HostCall,
    /// How many calls were begun. The count stands still at the greatest u64.
    pub calls: u64,
    /// The load that is open.
    pub load: Option<HostLoad>,
    /// The attempt whose connection isn't used again, until the host is told.
    pub poisoned: Option<u64>,
    /// Whether the host is waited for, until it is told what is open.
    pub is_parked: bool,
    /// Whether something that came was handed out since the last park.
    pub has_given: bool,
    /// How many failures were handed out. The count stands still at the greatest u64.
    pub faults: u64,
}

impl HostedOutside {
    /// An outside at this moment, whose random words are those of this seed. Nothing is open.
    pub fn new(alloc: Global, start: u64, seed: u64) -> HostedOutside
        ensures moment { result.moment ≡ start }
        ensures generator { result.generator ≡ seeded seed }
        ensures sleeps { result.sleeps ≡ [] }
        ensures call { result.call ≡ HostCall.Idle }
        ensures calls { result.calls ≡ 0 }
        ensures load { result.load ≡ None }
        ensures poisoned { result.poisoned ≡ None }
        ensures is_parked { result.is_parked ≡ false }
        ensures has_given { result.has_given ≡ false }
        ensures faults { result.faults ≡ 0 }
    {
        HostedOutside {
            moment: start,
            generator: Pcg64::seed_from_u64(seed),
            sleeps: Sleeps::new(alloc),
            call: HostCall::Idle,
            calls: 0,
            load: None,
            poisoned: None,
            is_parked: false,
            has_given: false,
            faults: 0,
        }
    }

    /// Whether something came that wasn't asked for yet.
    pub fn has_news(&self) -> bool
        ensures { result ≡ has_news self.now }
    {
        self.call.has_news() || load_has_news(&self.load)
    }

    fn fault(&mut self)
        ensures { self.new ≡ record self.old { faults = raised self.old.faults } }
    {
        self.faults = self.faults.saturating_add(1);
    }

    // Hands out what came of the request, where something did. The call is taken out.
    fn hand_reply(
        &mut self,
        number: u64,
        order: Option<Order>,
        reply: Option<HostReply>,
        body: HostBody,
    ) -> Sent
        requires { self.old.call ≡ HostCall.Idle }
        ensures { Hands self.old (HostCall.Waiting number order reply body) result self.new }
    {
        match reply {
            Some(HostReply::Response { status, headers }) => {
                self.has_given = true;
                self.call = HostCall::Streaming { number, body };
                Sent::Response(HttpResponse {
                    status,
                    headers,
                    body: Body::Taken,
                })
            }
            Some(HostReply::NoResponse(kind, text)) => {
                self.has_given = true;
                self.fault();
                Sent::Failed(kind, text)
            }
            None => {
                self.call = HostCall::Waiting {
                    number,
                    order,
                    reply: None,
                    body,
                };
                Sent::Pending
            }
        }
    }

    // Hands out the next frame, where one came. The call is taken out.
    fn hand_frame(&mut self, number: u64, mut body: HostBody) -> Polled
        requires { self.old.call ≡ HostCall.Idle }
        ensures { Flows self.old number (slice_get body.frames 0) (behind body) result self.new }
    {
        match body.frames.take() {
            Some(HostFrame::Data(bytes)) => {
                self.has_given = true;
                self.call = HostCall::Streaming { number, body };
                Polled::Data(bytes)
            }
            Some(HostFrame::Trailers) => {
                self.has_given = true;
                self.call = HostCall::Streaming { number, body };
                Polled::Trailers
            }
            Some(HostFrame::End) => {
                self.has_given = true;
                Polled::End
            }
            Some(HostFrame::Broken(fault)) => {
                self.has_given = true;
                self.fault();
                Polled::Failed(fault)
            }
            None => {
                self.call = HostCall::Streaming { number, body };
                Polled::Pending
            }
        }
    }

    // Hands out what came of the load, where something did. The load is taken out.
    fn hand_identity(&mut self, load: HostLoad) -> IdentityPoll
        requires { self.old.load ≡ None }
        ensures { Loads self.old load load.answer result self.new }
    {
        let HostLoad {
            id,
            is_told,
            answer,
        } = load;
        match answer {
            Some(HostIdentity::Loaded(identity)) => {
                self.has_given = true;
                IdentityPoll::Ready(identity)
            }
            Some(HostIdentity::NotLoaded(text)) => {
                self.has_given = true;
                self.fault();
                IdentityPoll::Failed(text)
            }
            None => {
                self.load = Some(HostLoad {
                    id,
                    is_told,
                    answer: None,
                });
                IdentityPoll::Pending
            }
        }
    }
}

// What the host is to send by this request and these settings.
fn order_of(request: &HttpRequest, settings: &Settings) -> Result<Order, OutOfMemory>
    ensures { IfOk result (λ order. order ≡ order_of request.now settings.now) }
{
    Ok(Order {
        request: request.clone()?,
        timeouts: timeouts_in(settings),
        capture: capture_in(settings),
    })
}

fn timeouts_in(settings: &Settings) -> Option<TimeoutConfig>
    ensures { result ≡ timeouts_of (loaded settings.now SettingKey.Timeouts) }
{
    match settings.load(&SettingKey::Timeouts) {
        Some(Setting::Timeouts(timeouts)) => Some(*timeouts),
        _ => None,
    }
}

fn capture_in(settings: &Settings) -> Option<u64>
    ensures { result ≡ capture_of (loaded settings.now SettingKey.Capture) }
{
    match settings.load(&SettingKey::Capture) {
        Some(Setting::Capture(number)) => Some(*number),
        _ => None,
    }
}

impl Timers for HostedOutside {
    ghost use Rattle.std.specs.Prelude.{Some, refl, true};
    ghost use Rattle.smithy_types.specs.Starting.{is_started};
    ghost use Rattle.outside_scripted.specs.Time.{later};
    ghost use Rattle.outside_hosted.specs.Makes.{Ticks};

    ghost moment = { λ s. Some s.moment };

    ghost sleeps = { λ _. true };

    ghost relates = { Ticks };

    fn has_sleep(&self) -> bool {
        true
    }

    fn now(&mut self) -> u64 {
        self.moment
    }

    fn start(&mut self, _alloc: Global, nanos: u64) -> Result<Option<u64>, OutOfMemory> {
        let due = self.moment.saturating_add(nanos);
        self.sleeps.open(due)?;
        Ok(Some(due))
    }

    fn ready(&mut self, sleep: u64) -> bool {
        sleep <= self.moment
    }

    fn give_up(&mut self, sleep: u64) {
        self.sleeps.close(sleep);
    }

    ghost keeps_sleeps = { λ old call new made. refl };

    ghost starts_where_sleeps = { λ old nanos sleep new made. is_started (later old.moment nanos) sleep
        made.0 };
}

impl Outside for HostedOutside {
    ghost use Rattle.std.specs.Prelude.{refl};
    ghost use Rattle.smithy_types.specs.Starting.{is_started};
    ghost use Rattle.outside_scripted.specs.Time.{later};
    ghost use Rattle.outside_hosted.specs.Makes.{Makes};
    ghost use Rattle.outside_hosted.specs.Counting.{each_failure_is_counted};

    ghost makes = { Makes };

    ghost faults = { λ s. s.faults };

    fn begin(
        &mut self,
        alloc: Global,
        request: &HttpRequest,
        settings: &Settings,
    ) -> Result<(), OutOfMemory> {
        let order = order_of(request, settings)?;
        let number = self.calls;
        self.calls = number.saturating_add(1);
        self.call = HostCall::Waiting {
            number,
            order: Some(order),
            reply: None,
            body: HostBody::new(alloc),
        };
        Ok(())
    }

    fn poll(&mut self, _alloc: Global) -> Result<Sent, OutOfMemory> {
        match mem::replace(&mut self.call, HostCall::Idle) {
            HostCall::Waiting {
                number,
                order,
                reply,
                body,
            } => Ok(self.hand_reply(number, order, reply, body)),
            other => {
                self.call = other;
                Ok(Sent::Pending)
            }
        }
    }

    fn frame(&mut self, _alloc: Global) -> Result<Polled, OutOfMemory> {
        match mem::replace(&mut self.call, HostCall::Idle) {
            HostCall::Idle => Ok(Polled::End),
            HostCall::Streaming { number, body } => Ok(self.hand_frame(number, body)),
            other => {
                self.call = other;
                Ok(Polled::Pending)
            }
        }
    }

    fn drop_call(&mut self) {
        self.call = HostCall::Idle;
    }

    fn resolve(&mut self, alloc: Global, id: &str) -> Result<IdentityPoll, OutOfMemory> {
        match mem::replace(&mut self.load, None) {
            Some(load) => {
                if load.id.as_str() == id {
                    return Ok(self.hand_identity(load));
                }
            }
            None => {}
        }
        self.load = Some(HostLoad::open(alloc, id)?);
        Ok(IdentityPoll::Pending)
    }

    fn drop_resolve(&mut self) {
        self.load = None;
    }

    fn word(&mut self) -> u64 {
        self.generator.next_word()
    }

    fn poison(&mut self, number: u64) {
        self.poisoned = Some(number);
    }

    fn park(&mut self) {
        self.is_parked = !(self.has_given && self.has_news());
        self.has_given = false;
    }

    ghost timers_make = { λ old call new made. made };

    ghost sleeps_stay = { λ old call new made. refl };

    ghost sleep_is_started = { λ old nanos sleep new made. is_started (later old.moment nanos) sleep
        made.0 };

    ghost counts = { each_failure_is_counted };
}
