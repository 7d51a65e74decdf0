//! The script's invocations.
ghost use Rattle.std.specs.Prelude.{◌≡◌, ◌<◌, ◌+◌, ◌%◌, ◌++◌, ◌∷◌, [], codes, IfOk};
ghost use Rattle.std.specs.Fmt.{decimal};
ghost use Rattle.json_scripts.specs.Workload.Made.{available, made_invocation, made_invocations};
ghost use Rattle.json_scripts.specs.Workload.Made.{response_at_once, unavailable};

use crate::client::InvocationRecord;
use outside_scripted::{Frame, RecordAnswer, ResponseRecord, ScriptedResponse};
use rand_core::SeedableRng;
use rand_core::utils::NextWord;
use rand_pcg::Pcg64;
use smithy_types::{Blob, Headers, List, OutOfMemory, Payload, StopPoint};
use std::alloc::Global;

// In how many ways an invocation may go: the service is unavailable 0, 1 or 2 times.
const OUTCOMES: u64 = 3;

/// The most calls of an invocation.
const FUEL: u64 = 100;

/// The invocations of a seed, numbered from 1, each with a word of its generator.
pub fn made_invocations(
    alloc: Global,
    count: u64,
    seed: u64,
) -> Result<List<InvocationRecord>, OutOfMemory>
    ensures { IfOk result (λ is. is ≡ made_invocations seed count) }
{
    let mut generator = Pcg64::seed_from_u64(seed);
    let mut invocations = List::new();
    for earlier in 0..count {
        let word = generator.next_word();
        invocations.push(alloc, made_invocation(alloc, earlier + 1, word)?)?;
    }
    Ok(invocations)
}

// The invocation of this number and this word.
fn made_invocation(alloc: Global, number: u64, word: u64) -> Result<InvocationRecord, OutOfMemory>
    ensures { IfOk result (λ i. i ≡ made_invocation number word) }
{
    let mut responses = unavailable(alloc, word % OUTCOMES)?;
    responses.push(alloc, available(alloc)?)?;
    Ok(InvocationRecord {
        client: 0,
        input: numbered(alloc, number)?,
        fuel: FUEL,
        stop: StopPoint::None,
        responses,
    })
}

// What an invocation sends: its number.
fn numbered(alloc: Global, number: u64) -> Result<Payload, OutOfMemory>
    ensures { IfOk result (λ p. p ≡ record { kind = 1; bytes = decimal number }) }
{
    let digits = format!(in alloc; "{number}")?;
    Ok(Payload {
        kind: 1,
        bytes: Blob::from_vec(digits.into_bytes())?,
    })
}

// So many responses that say that the service is unavailable.
fn unavailable(alloc: Global, times: u64) -> Result<List<ResponseRecord>, OutOfMemory>
    ensures { IfOk result (λ rs. rs ≡ unavailable times) }
{
    let mut responses = List::new();
    for _made in 0..times {
        responses.push(alloc, response_at_once(503, List::new()))?;
    }
    Ok(responses)
}

// The response of a service that is available.
fn available(alloc: Global) -> Result<ResponseRecord, OutOfMemory>
    ensures { IfOk result (λ r. r ≡ available) }
{
    let mut frames = List::new();
    frames.push(
        alloc,
        Frame {
            delay: 0,
            bytes: Blob::from_slice(alloc, b"ok")?,
        },
    )?;
    Ok(response_at_once(200, frames))
}

// A response that comes at once.
fn response_at_once(status: u16, frames: List<Frame>) -> ResponseRecord
    ensures { result ≡ response_at_once status frames }
{
    ResponseRecord {
        delay: 0,
        answer: RecordAnswer::Response(ScriptedResponse {
            status,
            headers: Headers::new(),
            frames,
            repeat: false,
            clock: None,
        }),
    }
}
