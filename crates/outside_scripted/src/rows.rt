//! The service, and the responses that it has.
ghost use Rattle.std.specs.Prelude.{◌≡◌, [], None, Some, map, IfOk};
ghost use Rattle.outside_scripted.specs.declared.call.OpenCall.TheVariants.{Idle};
ghost use Rattle.outside_scripted.specs.Service.{record_of};

use crate::{Frame, RecordAnswer, ResponseRecord, ScriptedOutside, ScriptedResponse};
use smithy_types::{Blob, Headers, List, OutOfMemory, Shared};
use std::alloc::Global;

/// A status, such as 200, and a body.
pub type Row = (u16, &'static str);

/// A service that answers each request by the next of these rows, at once, without headers and with
/// the body in one frame. Behind the last row a request fails. Its clock is at 0, it has no words
/// and no identities, and nothing is open. `OutOfMemory` where there is no memory for the
/// responses.
pub fn service(alloc: Global, rows: &[Row]) -> Result<ScriptedOutside, OutOfMemory>
    ensures records { IfOk result (λ s. s.records ≡ map record_of rows.now) }
    ensures moment { IfOk result (λ s. s.moment ≡ 0) }
    ensures words { IfOk result (λ s. s.words ≡ []) }
    ensures identities { IfOk result (λ s. s.identities ≡ Some []) }
    ensures sleeps { IfOk result (λ s. s.sleeps ≡ []) }
    ensures call { IfOk result (λ s. s.call ≡ Idle) }
    ensures load { IfOk result (λ s. s.load ≡ None) }
    ensures faults { IfOk result (λ s. s.faults ≡ 0) }
{
    let records = records_of(alloc, rows)?;
    let nobody = Shared::new(alloc, List::new())?;
    let mut outside = ScriptedOutside::new(alloc, 0, List::new());
    outside.begin_invocation(alloc, records, nobody);
    Ok(outside)
}

// The responses of these rows.
fn records_of(alloc: Global, rows: &[Row]) -> Result<List<ResponseRecord>, OutOfMemory>
    ensures { IfOk result (λ records. records ≡ map record_of rows.now) }
{
    let mut records = List::new();
    for row in rows {
        records.push(alloc, record_of(alloc, *row)?)?;
    }
    Ok(records)
}

// The response of a row.
fn record_of(alloc: Global, row: Row) -> Result<ResponseRecord, OutOfMemory>
    ensures { IfOk result (λ r. r ≡ record_of row.entry) }
{
    let (status, body) = row;
    let mut frames = List::new();
    let bytes = Blob::from_slice(alloc, body.as_bytes())?;
    frames.push(alloc, Frame { delay: 0, bytes })?;
    let response = ScriptedResponse {
        status,
        headers: Headers::new(),
        frames,
        repeat: false,
        clock: None,
    };
    Ok(ResponseRecord {
        delay: 0,
        answer: RecordAnswer::Response(response),
    })
}
