//! An outside that follows a script.
ghost use Rattle.std.specs.Prelude.{◌≡◌, [], None};
ghost use Rattle.outside_scripted.specs.Call.{call_of};

use crate::call::{OpenBody, OpenCall};
use crate::loads::{OpenLoad, due_at, due_of, place_of};
use crate::queue::Records;
use crate::records::{
    IdentityAnswer, IdentityRecord, RecordAnswer, ResponseRecord, ScriptedResponse,
};
use crate::sleeps::Sleeps;
use crate::wake::{earliest, sooner_of, woken};
use crate::words::Words;
use outside::{IdentityPoll, Outside, Sent};
use smithy_context::Settings;
use smithy_types::{
    Body, ConnectorKind, HttpRequest, HttpResponse, List, OutOfMemory, Polled, Shared, Text, Timers,
};
use std::alloc::Global;

/// The text of a request for which the script has no record left.
const NO_RECORD: &str = "no more responses";

/// The text of a load for which the client has no source.
const NO_SOURCE: &str = "no identity source";

/// An outside whose clock moves only by `park`, and by a response that sets it.
pub struct ScriptedOutside {
    /// The present moment.
    pub moment: u64,
    /// The words that are still to be drawn.
    pub words: Words,
    /// The records that are still to come in this invocation.
    pub records: Records,
    /// The sources of the client's identities.
    pub identities: Option<Shared<List<IdentityRecord>>>,
    /// The sleeps that are open.
    pub sleeps: Sleeps,
    /// The call that is open.
    pub call: OpenCall,
    /// The load that is open.
    pub load: Option<OpenLoad>,
    /// How many failures were handed out. The count stands still at the greatest u64.
    pub faults: u64,
}

// Written out, so that a drop is one call wherever an outside is dropped.
impl Drop for ScriptedOutside {
    fn drop(self) {
        let ScriptedOutside {
            moment: _,
            words: _,
            records: _,
            identities: _,
            sleeps: _,
            call: _,
            load: _,
            faults: _,
        } = self;
    }
}

impl ScriptedOutside {
    ghost use Rattle.std.specs.Prelude.{Some};
    ghost use Rattle.outside_scripted.specs.Makes.{dues, identities_of};
    ghost use Rattle.outside_scripted.specs.Wake.{IsNext};

    /// An outside at this moment, with these words. It has no record and no identity yet.
    pub fn new(alloc: Global, start: u64, words: List<u64>) -> ScriptedOutside
        ensures moment { result.moment ≡ start }
        ensures words { result.words ≡ words }
        ensures records { result.records ≡ [] }
        ensures identities { result.identities ≡ None }
        ensures sleeps { result.sleeps ≡ [] }
        ensures call { result.call ≡ OpenCall.Idle }
        ensures load { result.load ≡ None }
        ensures faults { result.faults ≡ 0 }
    {
        ScriptedOutside {
            moment: start,
            words: Words::new(words),
            records: Records::new(alloc, List::new()),
            identities: None,
            sleeps: Sleeps::new(alloc),
            call: OpenCall::Idle,
            load: None,
            faults: 0,
        }
    }

    /// Hands over the records of an invocation and the identities of its client. The clock, the
    /// words and the count of failures go on; nothing stays open.
    pub fn begin_invocation(
        &mut self,
        alloc: Global,
        records: List<ResponseRecord>,
        identities: Shared<List<IdentityRecord>>,
    )
        ensures { self.new ≡ record self.old {
          records = records;
          identities = Some identities;
          sleeps = [];
          call = OpenCall.Idle;
          load = None;
        } }
    {
        self.records = Records::new(alloc, records);
        self.identities = Some(identities);
        self.sleeps.close_all();
        self.call = OpenCall::Idle;
        self.load = None;
    }

    // The sources of the client's identities.
    fn identities(&self) -> &[IdentityRecord]
        ensures { result.now ≡ identities_of self.now.identities }
    {
        match &self.identities {
            Some(identities) => identities.get().as_slice(),
            None => &[],
        }
    }

    // The least moment above the present one at which something open is due.
    fn next_due(&self) -> Option<u64>
        ensures { IsNext self.now.moment (dues self.now) result }
    {
        let next = earliest(self.sleeps.as_slice(), self.moment);
        let next = sooner_of(next, self.call.due(), self.moment);
        sooner_of(next, due_at(self.load), self.moment)
    }
}

impl ScriptedOutside {
    ghost use Rattle.std.specs.Prelude.{◌<◌, Some, MatchResult, length, slice_get};
    ghost use Rattle.outside_scripted.specs.Makes.{AsksAt, Hands, identities_of, Loads};

    // Hands out what has come of the request.
    fn hand_out(&mut self, answer: RecordAnswer) -> Sent
        ensures { Hands self.old (Some answer) result self.new }
    {
        match answer {
            RecordAnswer::Failed(kind, text) => {
                self.call = OpenCall::Idle;
                self.faults = self.faults.saturating_add(1);
                Sent::Failed(kind, text)
            }
            RecordAnswer::Response(response) => Sent::Response(self.stream(response)),
        }
    }

    // Sets the clock, if the response does, and opens the body.
    fn stream(&mut self, response: ScriptedResponse) -> HttpResponse
        ensures { Hands self.old (Some (RecordAnswer.Response response))
            (Sent.Response result) self.new }
    {
        self.moment = response.clock.unwrap_or(self.moment);
        self.call = OpenCall::Streaming(OpenBody::new(
            response.frames,
            response.repeat,
            self.moment,
        ));
        HttpResponse {
            status: response.status,
            headers: response.headers,
            body: Body::Taken,
        }
    }

    // Asks for a load of the source at this place.
    fn ask(&mut self, place: usize) -> Result<IdentityPoll, OutOfMemory>
        requires { place < length (identities_of self.old.identities) }
        ensures { MatchResult result
            (λ answer. AsksAt self.old place
            (slice_get (identities_of self.old.identities) place) answer self.new)
            (λ _. self.new ≡ self.old) }
    {
        let source = &self.identities()[place];
        let due = due_of(self.load, place, self.moment.saturating_add(source.delay));
        if due > self.moment {
            self.load = Some(OpenLoad { source: place, due });
            return Ok(IdentityPoll::Pending);
        }
        match &source.answer {
            IdentityAnswer::Identity(identity) => {
                let identity = identity.clone()?;
                self.load = None;
                Ok(IdentityPoll::Ready(identity))
            }
            IdentityAnswer::Failed(text) => {
                let text = text.clone()?;
                Ok(self.fail_load(text))
            }
        }
    }

    // Ends the load with a failure.
    fn fail_load(&mut self, text: Text) -> IdentityPoll
        ensures { Loads self.old (IdentityAnswer.Failed text) result self.new }
    {
        self.load = None;
        self.faults = self.faults.saturating_add(1);
        IdentityPoll::Failed(text)
    }
}

// The call that is open after this record was taken. Without one it fails at once.
fn begun(next: Option<ResponseRecord>, moment: u64) -> OpenCall
    ensures { result ≡ call_of moment next }
{
    match next {
        Some(next) => OpenCall::Waiting {
            due: moment.saturating_add(next.delay),
            answer: next.answer,
        },
        None => OpenCall::Waiting {
            due: moment,
            answer: RecordAnswer::Failed(ConnectorKind::Io, Text::from_static(NO_RECORD)),
        },
    }
}

impl Timers for ScriptedOutside {
    ghost use Rattle.std.specs.Prelude.{Some, refl, true};
    ghost use Rattle.smithy_types.specs.Starting.{is_started};
    ghost use Rattle.outside_scripted.specs.Time.{later};
    ghost use Rattle.outside_scripted.specs.Makes.{Ticks};

    ghost moment = { λ s. Some s.moment };

    ghost sleeps = { λ _. true };

    ghost relates = { Ticks };

    fn has_sleep(&self) -> bool {
        true
    }

    fn now(&mut self) -> u64 {
        self.moment
    }

    fn start(&mut self, _alloc: Global, nanos: u64) -> Result<Option<u64>, OutOfMemory> {
        let due = self.moment.saturating_add(nanos);
        self.sleeps.open(due)?;
        Ok(Some(due))
    }

    fn ready(&mut self, sleep: u64) -> bool {
        sleep <= self.moment
    }

    fn give_up(&mut self, sleep: u64) {
        self.sleeps.close(sleep);
    }

    ghost keeps_sleeps = { λ old call new made. refl };

    ghost starts_where_sleeps = { λ old nanos sleep new made. is_started (later old.moment nanos) sleep
        made.0 };
}

impl Outside for ScriptedOutside {
    ghost use Rattle.std.specs.Prelude.{refl};
    ghost use Rattle.smithy_types.specs.Starting.{is_started};
    ghost use Rattle.outside_scripted.specs.Time.{later};
    ghost use Rattle.outside_scripted.specs.Makes.{Makes};
    ghost use Rattle.outside_scripted.specs.Counting.{each_failure_is_counted};

    ghost makes = { Makes };

    ghost faults = { λ s. s.faults };

    fn begin(
        &mut self,
        _alloc: Global,
        _request: &HttpRequest,
        _settings: &Settings,
    ) -> Result<(), OutOfMemory> {
        self.call = begun(self.records.take(), self.moment);
        Ok(())
    }

    fn poll(&mut self, _alloc: Global) -> Result<Sent, OutOfMemory> {
        match self.call.take_answer(self.moment) {
            Some(answer) => Ok(self.hand_out(answer)),
            None => Ok(Sent::Pending),
        }
    }

    fn frame(&mut self, _alloc: Global) -> Result<Polled, OutOfMemory> {
        self.call.frame(self.moment)
    }

    fn drop_call(&mut self) {
        self.call = OpenCall::Idle;
    }

    fn resolve(&mut self, _alloc: Global, id: &str) -> Result<IdentityPoll, OutOfMemory> {
        match place_of(self.identities(), id) {
            Some(place) => self.ask(place),
            None => Ok(self.fail_load(Text::from_static(NO_SOURCE))),
        }
    }

    fn drop_resolve(&mut self) {
        self.load = None;
    }

    fn word(&mut self) -> u64 {
        self.words.draw()
    }

    fn poison(&mut self, _number: u64) {}

    fn park(&mut self) {
        self.moment = woken(self.next_due(), self.moment);
    }

    ghost timers_make = { λ old call new made. made };

    ghost sleeps_stay = { λ old call new made. refl };

    ghost sleep_is_started = { λ old nanos sleep new made. is_started (later old.moment nanos) sleep
        made.0 };

    ghost counts = { each_failure_is_counted };
}
