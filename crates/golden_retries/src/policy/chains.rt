//! What interceptors of a chain answer together, and what those on requests write.
use anyhow::Result as Told;
use smithy_base::{
    Intercept, MapRequest, MapRequestInterceptor, MutateRequest, MutateRequestInterceptor, run_each,
};
use smithy_context::{Change, HookAnswer, HookView, Layer, Setting, Settings};
use smithy_types::{Blob, Body, Headers, Hook, HttpRequest, List, OutOfMemory, Shared, Text};
use std::alloc::Global;
use std::fmt::Debug;

/// Fails at each hook.
#[derive(Drop)]
struct Failing {
    name: Text,
    text: Text,
}

impl Intercept for Failing {
    ghost use Rattle.std.specs.Prelude.{◌≡◌, true};

    ghost names = { λ f. f.name };

    ghost hooks = { λ _ _. true };

    ghost runs = { λ old hook view answer new. new ≡ old };

    fn name(&self) -> &str {
        self.name.as_str()
    }

    fn overrides(&self, _hook: Hook) -> bool {
        true
    }

    fn run(
        &mut self,
        _alloc: Global,
        _hook: Hook,
        _view: &HookView,
    ) -> Result<HookAnswer, OutOfMemory> {
        let failure = self.text.clone()?;
        let mut answer = HookAnswer::done();
        answer.failure = Some(failure);
        Ok(answer)
    }
}

/// Refuses each request.
#[derive(Drop)]
struct Refusing;

impl MapRequest for Refusing {
    ghost use Rattle.std.specs.Prelude.{◌≡◌, Err, codes};

    ghost maps = { λ _ request given. given ≡ Err (codes "no") };

    fn map_request(&self, _request: HttpRequest) -> Result<HttpRequest, Text> {
        Err(Text::from_static("no"))
    }
}

/// Makes each request a DELETE.
#[derive(Drop)]
struct Deleting;

impl MutateRequest for Deleting {
    ghost use Rattle.std.specs.Prelude.{◌≡◌, codes};

    ghost mutates = { λ _ before after. after ≡ record before { method = codes "DELETE" } };

    fn mutate_request(&self, request: &mut HttpRequest) {
        request.method = Text::from_static("DELETE");
    }
}

/// The names that are disabled of two interceptors, First and Second, that fail with a and with b.
const DISABLED: &[&[&str]] = &[&[], &["Second"], &["First", "Second"]];

/// The hooks at which a request is shown.
const HOOKS: &[Hook] = &[Hook::ModifyBeforeSigning, Hook::ReadBeforeSigning];

/// Prints the failures of chains, and what the interceptors on requests write.
pub fn print(rt: &HostRuntime) -> Told<()> {
    println!(rt; "of two interceptors that fail, the last one that runs is answered")?;
    for names in DISABLED {
        let failure = failure_text(rt.alloc(), names)?;
        println!(rt; "  disabled {names:?}: {failure:?}")?;
    }
    print_written(
        rt,
        "a map that refuses",
        MapRequestInterceptor::new(Refusing),
    )?;
    print_written(rt, "a mutation", MutateRequestInterceptor::new(Deleting))
}

fn fails_with(name: &'static str, text: &'static str) -> Failing {
    Failing {
        name: Text::from_static(name),
        text: Text::from_static(text),
    }
}

// What the two interceptors fail with where these are disabled.
fn failure_text(alloc: Global, names: &[&'static str]) -> Result<Option<Text>, OutOfMemory> {
    let settings = disabling(alloc, names)?;
    let mut chain = vec![in alloc; fails_with("First", "a"), fails_with("Second", "b")]?;
    failure(
        alloc,
        chain.as_mut_slice(),
        &HookView {
            input: None,
            request: None,
            response: None,
            outcome: None,
            attempt: 1,
            settings,
        },
    )
}

fn failure<I: Intercept>(
    alloc: Global,
    chain: &mut [I],
    view: &HookView,
) -> Result<Option<Text>, OutOfMemory> {
    let answer = run_each(alloc, chain, Hook::ReadBeforeTransmit, view)?;
    Ok(answer.failure)
}

fn disabling(alloc: Global, names: &[&'static str]) -> Result<Settings, OutOfMemory> {
    let mut list = List::new();
    for name in names {
        list.push(alloc, Text::from_static(name))?;
    }
    settings_of(alloc, Setting::Disable(list))
}

fn settings_of(alloc: Global, setting: Setting) -> Result<Settings, OutOfMemory> {
    let mut layer = Layer::new();
    layer.put(alloc, setting)?;
    let mut settings = Settings::new();
    settings.merge(alloc, &layer)?;
    Ok(settings)
}

// Prints what an interceptor is called, and what it makes of a request at each hook.
fn print_written<I: Intercept + Debug>(
    rt: &HostRuntime,
    subject: &'static str,
    mut interceptor: I,
) -> Told<()> {
    println!(rt;
        "{subject} is shown as {interceptor:?} and called {}",
        interceptor.name()
    )?;
    for hook in HOOKS {
        let text = answer_text(rt.alloc(), &mut interceptor, *hook)?;
        println!(rt; "  {hook:?}: {text}")?;
    }
    Ok(())
}

fn post() -> HttpRequest {
    HttpRequest {
        method: Text::from_static("POST"),
        uri: Text::from_static("/a"),
        headers: Headers::new(),
        body: Body::Bytes(Blob::new()),
    }
}

fn shared(alloc: Global, request: HttpRequest) -> Result<Option<Shared<HttpRequest>>, OutOfMemory> {
    Ok(Some(Shared::new(alloc, request)?))
}

fn answer_text<I: Intercept>(alloc: Global, interceptor: &mut I, hook: Hook) -> Told<String> {
    let request = shared(alloc, post())?;
    let answer = answered(
        alloc,
        interceptor,
        hook,
        &HookView {
            input: None,
            request,
            response: None,
            outcome: None,
            attempt: 1,
            settings: Settings::new(),
        },
    )?;
    let written = written(alloc, &answer)?;
    Ok(format!(in alloc; "{written}, failure {:?}", answer.failure)?)
}

fn answered<I: Intercept>(
    alloc: Global,
    interceptor: &mut I,
    hook: Hook,
    view: &HookView,
) -> Result<HookAnswer, OutOfMemory> {
    interceptor.run(alloc, hook, view)
}

fn written(alloc: Global, answer: &HookAnswer) -> Told<String> {
    match &answer.change {
        Some(Change::Request(request)) => Ok(format!(in alloc; "{:?}", request.get())?),
        _ => Ok(format!(in alloc; "nothing")?),
    }
}
