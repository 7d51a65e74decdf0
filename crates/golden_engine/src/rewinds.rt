//! Prints what rewinds of a context come to, without a checkpoint and with one.

use anyhow::Result;
use smithy_context::{InterceptorContext, RewindResult};
use smithy_types::{Blob, Body, Headers, HttpRequest, OutOfMemory, Payload, Shared, Text};
use std::alloc::Global;

pub fn print(rt: &HostRuntime) -> Result<()> {
    println!(rt; "two rewinds, and the request behind them")?;
    print_rewound(rt, "without a checkpoint", &mut changed(rt.alloc(), false)?)?;
    print_rewound(rt, "with a checkpoint", &mut changed(rt.alloc(), true)?)
}

fn print_rewound(rt: &HostRuntime, name: &str, ctx: &mut InterceptorContext) -> Result<()> {
    let first = rewound(ctx)?;
    let second = rewound(ctx)?;
    println!(rt; "  {name}: {first:?}, {second:?}, {}", method(ctx))?;
    Ok(())
}

fn rewound(ctx: &mut InterceptorContext) -> Result<RewindResult, OutOfMemory> {
    ctx.rewind()
}

fn method(ctx: &InterceptorContext) -> &str {
    match ctx.request() {
        Some(request) => request.method.as_str(),
        None => "none",
    }
}

// A context whose POST was changed to a PUT, and kept before that where a checkpoint is wanted.
fn changed(alloc: Global, is_kept: bool) -> Result<InterceptorContext, OutOfMemory> {
    let mut ctx = opened(alloc)?;
    ctx.view.request = Some(request(alloc, "POST")?);
    if is_kept {
        ctx.save_checkpoint()?;
    }
    ctx.view.request = Some(request(alloc, "PUT")?);
    Ok(ctx)
}

fn opened(alloc: Global) -> Result<InterceptorContext, OutOfMemory> {
    let input = Payload {
        kind: 1,
        bytes: Blob::new(),
    };
    InterceptorContext::new(alloc, input)
}

fn request(alloc: Global, method: &'static str) -> Result<Shared<HttpRequest>, OutOfMemory> {
    let request = HttpRequest {
        method: Text::from_static(method),
        uri: Text::from_static("/"),
        headers: Headers::new(),
        body: Body::Bytes(Blob::new()),
    };
    Ok(Shared::new(alloc, request)?)
}
