//! A question is answered by the part of its kind.
ghost use Rattle.std.specs.Prelude.{IfOk, OnErr};
ghost use Rattle.client_components.specs.Lacking.{LeftBy};
ghost use Rattle.client_components.specs.Serving.{Answers};

use crate::{ClientMeans, ClientTypes, Parts};
use client_auth::apply::{apply, resolve_endpoint};
use client_auth::deserialize::{deserialize, stream};
use client_auth::serialize::serialize;
use client_auth::sign::sign;
use client_call::load::load;
use run_grammar::{Answer, Question};
use smithy_types::OutOfMemory;
use std::alloc::Global;

impl<T: ClientTypes> Parts<T> {
    /// Answers one question.
    pub fn answer(&mut self, alloc: Global, question: &Question) -> Result<Answer, OutOfMemory>
        ensures ok { IfOk result (λ a.
            Answers ⟦<T as ClientMeans>⟧.means self.old question.now a self.new) }
        ensures err { OnErr result (LeftBy T.Outside.makes T.Classifier.says
            ⟦<T as ClientMeans>⟧.means.quota
            ⟦<T as ClientMeans>⟧.means.chain self.old question.now self.new) }
    {
        match question {
            Question::Configure { stage, .. } => self.configure(*stage),
            Question::Hook { hook, view } => self.hook(alloc, *hook, view),
            Question::Serialize { input, settings } => {
                serialize(alloc, &self.given.serializer, input, settings)
            }
            Question::Load { request } => load(request),
            Question::Initial { settings } => self.initial(alloc, settings),
            Question::Start { role, nanos } => self.start(alloc, *role, *nanos),
            Question::Wait { role } => Ok(self.wait(*role)),
            Question::Choose { settings } => self.choose(alloc, settings),
            Question::Endpoint { .. } => resolve_endpoint(&self.given.endpoint),
            Question::Apply {
                settings,
                request,
                endpoint,
            } => apply(alloc, request, endpoint, settings),
            Question::Sign {
                request,
                scheme,
                identity,
                endpoint,
                ..
            } => {
                let schemes = self.given.schemes.as_slice();
                sign(alloc, schemes, request, scheme, identity, endpoint)
            }
            Question::Transmit { settings, request } => self.transmit(alloc, settings, request),
            Question::Stream { settings, response } => {
                let may_stream = self.given.may_stream;
                stream(
                    alloc,
                    &self.given.deserializer,
                    may_stream,
                    response,
                    settings,
                )
            }
            Question::Body { settings, response } => self.body(alloc, settings, response),
            Question::Deserialize { settings, response } => {
                deserialize(alloc, &self.given.deserializer, response, settings)
            }
            Question::Decide {
                settings,
                request,
                response,
                outcome,
                attempt,
            } => self.decide(alloc, settings, request, response, outcome, *attempt),
            Question::Abandon { abandoned } => Ok(self.abandon(*abandoned)),
            Question::Park => Ok(self.park()),
        }
    }
}
