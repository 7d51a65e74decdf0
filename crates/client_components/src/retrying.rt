//! Configure, Hook, Initial and Decide.
ghost use Rattle.std.specs.Prelude.{◌≡◌, IfOk, MatchBool, None, OnErr};
ghost use Rattle.client_components.specs.Lacking.{DecidesNothing, HookStops, InitialStops};
ghost use Rattle.client_components.specs.Resting.{Ends};
ghost use Rattle.client_components.specs.Retrying.{Begins, Configures, Decides, RunsHook};
ghost use Rattle.client_components.specs.Retrying.{decided_view, is_first};
ghost use Rattle.client_components.specs.Retrying.{sleeps_after, sleeps_ended};
ghost use Rattle.retry_policy.specs.Verdict.{verdict_of};
ghost use Rattle.client_retries.specs.Hooking.{seen_context};
ghost use Rattle.smithy_types.specs.Chain.{Chained};

use crate::{ClientMeans, ClientTypes, Parts};
use client_call::Sleeps;
use client_call::sleeping::{end_all_sleeps, end_role};
use client_retries::configure::{CacheNeeds, configure};
use client_retries::decide::{context_of, decide};
use client_retries::hooking::hook as run_hook;
use client_retries::initial::initial;
use outside::Outside;
use run_grammar::{Answer, ConfigureStage, Role};
use smithy_context::{HookView, Settings};
use smithy_types::{Hook, HttpRequest, HttpResponse, OutOfMemory, Outcome, Shared};
use std::alloc::Global;

impl<T: ClientTypes> Parts<T> {
    /// A step of the configuration. Before the first, what an earlier run left open is ended.
    pub fn configure(&mut self, stage: ConfigureStage) -> Result<Answer, OutOfMemory>
        ensures ok { IfOk result (λ a. Configures T.Outside.makes self.old stage a self.new) }
        ensures err { OnErr result (MatchBool (is_first stage)
            (Ends T.Outside.makes self.old self.new)
            (self.new ≡ self.old)) }
    {
        if is_first(stage) {
            self.end_open();
        }
        let needs = CacheNeeds {
            lazy_cache: self.identities.has_cache(),
            time_source: self.given.time_source,
            sleep_impl: self.given.sleep_impl,
        };
        configure(stage, &self.given.client, needs)
    }

    /// A hook: sleeps that end here are given up, and then the interceptors run.
    pub fn hook(
        &mut self,
        alloc: Global,
        hook: Hook,
        view: &HookView,
    ) -> Result<Answer, OutOfMemory>
        ensures ok { IfOk result (λ a. RunsHook T.Outside.makes T.Classifier.says
            ⟦<T as ClientMeans>⟧.means.quota
            ⟦<T as ClientMeans>⟧.means.chain self.old hook view.now a self.new) }
        ensures err { OnErr result (HookStops T.Outside.makes T.Classifier.says
            ⟦<T as ClientMeans>⟧.means.quota
            ⟦<T as ClientMeans>⟧.means.chain self.old hook view.now self.new) }
    {
        end_sleeps(&mut self.sleeps, &mut self.outside, hook);
        run_hook(
            alloc,
            self.given.classifiers.as_slice(),
            self.interceptors.as_mut_slice(),
            &mut self.outside,
            &mut self.quota,
            hook,
            view,
        )
    }

    /// Whether an attempt is begun.
    pub fn initial(&mut self, alloc: Global, settings: &Settings) -> Result<Answer, OutOfMemory>
        ensures ok { IfOk result (λ a. Begins T.Outside.makes
            ⟦<T as ClientMeans>⟧.means.quota self.old
            settings.now a self.new) }
        ensures err { OnErr result (InitialStops T.Outside.makes
            ⟦<T as ClientMeans>⟧.means.quota self.old self.new) }
    {
        initial(
            alloc,
            self.given.time_source,
            &mut self.strategy,
            &mut self.outside,
            &mut self.quota,
            settings,
        )
    }

    /// Whether a further attempt is made.
    pub fn decide(
        &mut self,
        alloc: Global,
        settings: &Settings,
        request: &Option<Shared<HttpRequest>>,
        response: &Option<Shared<HttpResponse>>,
        outcome: &Option<Shared<Outcome>>,
        attempt: u64,
    ) -> Result<Answer, OutOfMemory>
        ensures ok { IfOk result (λ a. Decides T.Outside.makes T.Classifier.says
            ⟦<T as ClientMeans>⟧.means.quota self.old
            (decided_view settings.now request.now response.now outcome.now attempt) a self.new) }
        ensures err { OnErr result (DecidesNothing T.Outside.makes T.Classifier.says
            ⟦<T as ClientMeans>⟧.means.quota self.old
            (decided_view settings.now request.now response.now outcome.now attempt) self.new) }
    {
        let context = context_of(decided_view(settings, request, response, outcome, attempt)?);
        decide(
            alloc,
            self.given.classifiers.as_slice(),
            self.given.time_source,
            &mut self.strategy,
            &mut self.outside,
            &mut self.quota,
            &context,
        )
    }
}

// Whether the step is the first.
fn is_first(stage: ConfigureStage) -> bool
    ensures { result ≡ is_first stage }
{
    matches!(stage, ConfigureStage::Client)
}

// Gives up the sleeps that end at this hook: the attempt's deadline before its completion, and
// every sleep before the operation's.
fn end_sleeps<X: Outside>(sleeps: &mut Sleeps, outside: &mut X, hook: Hook)
    ensures sleeps { sleeps.new ≡ sleeps_after hook sleeps.old }
    ensures calls { Chained X.makes outside.old (sleeps_ended hook sleeps.old) outside.new }
{
    match hook {
        Hook::ModifyBeforeAttemptCompletion => end_role(sleeps, outside, Role::Attempt),
        Hook::ModifyBeforeCompletion => end_all_sleeps(sleeps, outside),
        _ => {}
    }
}

// The parts that a decision is handed, as a view.
fn decided_view(
    settings: &Settings,
    request: &Option<Shared<HttpRequest>>,
    response: &Option<Shared<HttpResponse>>,
    outcome: &Option<Shared<Outcome>>,
    attempt: u64,
) -> Result<HookView, OutOfMemory>
    ensures { IfOk result (λ v. v ≡
        decided_view settings.now request.now response.now outcome.now attempt) }
{
    Ok(HookView {
        input: None,
        request: request.clone()?,
        response: response.clone()?,
        outcome: outcome.clone()?,
        attempt,
        settings: settings.clone()?,
    })
}
