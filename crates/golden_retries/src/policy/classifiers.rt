//! What each classifier of the crate says.
use crate::policy::not_served::{NotServed, payload};
use anyhow::Result as Told;
use retry_policy::{
    Classifier, ClassifyRetry, HttpStatusCodeClassifier, ModeledAsRetryableClassifier,
    TransientErrorClassifier,
};
use smithy_context::InterceptorContext;
use smithy_types::{
    Body, Fault, FaultKind, Headers, HttpResponse, OutOfMemory, RetryAction, Shared, Text,
};
use std::alloc::Global;

/// What stands in a context.
#[derive(Clone, Copy, Debug)]
enum Standing {
    /// A response with this status.
    Status(u16),
    /// A failure of the operation with a payload of this kind.
    Operation(u32),
    /// A response that couldn't be read.
    Response,
    /// A deadline that passed.
    Timeout,
}

const STATUSES: &[Standing] = &[Standing::Status(500), Standing::Status(408)];

const OPERATIONS: &[Standing] = &[Standing::Operation(4), Standing::Operation(5)];

const FAILURES: &[Standing] = &[Standing::Response, Standing::Timeout];

/// A context in which this failed.
pub fn failed(alloc: Global, kind: FaultKind) -> Result<InterceptorContext, OutOfMemory> {
    let mut ctx = InterceptorContext::new(alloc, payload(0))?;
    let text = Text::new();
    ctx.fail(alloc, Fault { kind, text })?;
    Ok(ctx)
}

fn answered(alloc: Global, status: u16) -> Result<InterceptorContext, OutOfMemory> {
    let response = HttpResponse {
        status,
        headers: Headers::new(),
        body: Body::Taken,
    };
    let response = Shared::new(alloc, response)?;
    let mut ctx = InterceptorContext::new(alloc, payload(0))?;
    ctx.view.response = Some(response);
    Ok(ctx)
}

fn context(alloc: Global, standing: Standing) -> Result<InterceptorContext, OutOfMemory> {
    match standing {
        Standing::Status(status) => answered(alloc, status),
        Standing::Operation(kind) => failed(alloc, FaultKind::Operation(payload(kind))),
        Standing::Response => failed(alloc, FaultKind::Response),
        Standing::Timeout => failed(alloc, FaultKind::Timeout),
    }
}

// What the classifier says, where none was asked before it.
fn said<C: ClassifyRetry>(
    alloc: Global,
    classifier: &C,
    standing: Standing,
) -> Result<RetryAction, OutOfMemory> {
    let ctx = context(alloc, standing)?;
    Ok(classifier.classify_retry_v2(&ctx, &RetryAction::NoActionIndicated))
}

// Prints the classifier's name and priority, and what it says of each case.
fn print_said<C: ClassifyRetry>(rt: &HostRuntime, classifier: &C, cases: &[Standing]) -> Told<()> {
    println!(rt; "{}, priority {}", classifier.name(), classifier.priority())?;
    for standing in cases {
        let action = said(rt.alloc(), classifier, *standing)?;
        println!(rt; "  {standing:?}: {action:?}")?;
    }
    Ok(())
}

/// Prints what the crate's three classifiers say.
pub fn print(rt: &HostRuntime) -> Told<()> {
    let status: Classifier<NotServed> = Classifier::HttpStatusCode(
        HttpStatusCodeClassifier::default(rt.alloc())?,
    );
    print_said(rt, &status, STATUSES)?;
    let modeled: Classifier<NotServed> = Classifier::ModeledAsRetryable(
        ModeledAsRetryableClassifier::new(),
    );
    print_said(rt, &modeled, OPERATIONS)?;
    let transient: Classifier<NotServed> = Classifier::TransientError(
        TransientErrorClassifier::new(),
    );
    print_said(rt, &transient, FAILURES)
}
