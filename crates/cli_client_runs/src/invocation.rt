//! One invocation of a client's operation.
ghost use Rattle.std.specs.Prelude.{◌≡◌, [], IfOk, OnErr};
ghost use Rattle.cli_client_runs.specs.Means.{ServedBy};
ghost use Rattle.cli_client_runs.specs.Invoking.{Invoked, InvokedNoting, Stops, head_of};

use crate::noting::{NotedRun, run_noting};
use client_retries::{InterceptorMeaning, TakeOffer};
use client_scripted::service::{ERROR_KIND, OUTPUT_KIND};
use client_scripted::{ClientQuota, ScriptedClient};
use json_print::world::run_over;
use json_print::{Ending, RunHead};
use json_scripts::client::InvocationRecord;
use outside_scripted::ScriptedOutside;
use retry_policy::ClassifyRetry;
use run_grammar::Entry;
use smithy_types::{List, OutOfMemory, Payload, StopPoint};
use std::alloc::Global;
use std::mem;

/// How many entries a log has room for at first: those of a run of three attempts.
const LOG_ROOM: usize = 96;

/// Runs the client's operation over this outside and this quota, which come back as the run leaves
/// them. Answers the run's entries and how it ended. Where the run finds no memory they come back
/// too, and the client has its own again.
pub fn invoke<C: ClassifyRetry, I: TakeOffer>(
    alloc: Global,
    client: &mut ScriptedClient<C, I>,
    outside: &mut ScriptedOutside,
    quota: &mut ClientQuota,
    invocation: InvocationRecord,
) -> Result<(List<Entry>, Ending), OutOfMemory>
    ensures made { IfOk result (λ ran. Invoked
        (ServedBy C.says ⟦<I as InterceptorMeaning>⟧.means) client.old outside.old
        quota.old invocation ran.0 ran.1 client.new outside.new quota.new) }
    ensures lost { OnErr result (Stops client.old outside.old quota.old invocation client.new
        outside.new quota.new) }
{
    let InvocationRecord {
        input,
        fuel,
        stop,
        responses,
        ..
    } = invocation;
    let head = head_of(input, fuel, stop);
    outside.begin_invocation(alloc, responses, client.identities.clone()?);
    let empty_log = log_with_room(alloc)?;
    client.world.log = empty_log;
    client.world.swap_parts(outside, quota);
    let ran = run_over(alloc, &client.operation, &head, &mut client.world);
    client.world.swap_parts(outside, quota);
    match ran {
        Ok(ending) => {
            let log = mem::replace(&mut client.world.log, List::new());
            Ok((log, ending))
        }
        Err(refused) => Err(refused),
    }
}

/// What was made of a client whose moments were noted.
#[derive(Drop)]
pub struct NotedInvocation<C: ClassifyRetry, I: TakeOffer> {
    /// The client.
    pub client: ScriptedClient<C, I>,
    /// The run's entries.
    pub log: List<Entry>,
    /// How it ended.
    pub ending: Ending,
    /// The moments that were noted before, and one for each entry.
    pub moments: List<u64>,
}

/// Runs the client's operation as `invoke` does, and notes the moment of each entry behind these.
pub fn invoke_noting<C: ClassifyRetry, I: TakeOffer>(
    alloc: Global,
    client: ScriptedClient<C, I>,
    outside: &mut ScriptedOutside,
    quota: &mut ClientQuota,
    invocation: InvocationRecord,
    moments: List<u64>,
) -> Result<NotedInvocation<C, I>, OutOfMemory>
    ensures { IfOk result (λ ran. InvokedNoting
        (ServedBy C.says ⟦<I as InterceptorMeaning>⟧.means) client outside.old quota.old
        invocation moments ran.log ran.ending ran.client outside.new quota.new ran.moments) }
{
    let InvocationRecord {
        input,
        fuel,
        stop,
        responses,
        ..
    } = invocation;
    let head = head_of(input, fuel, stop);
    outside.begin_invocation(alloc, responses, client.identities.clone()?);
    let ScriptedClient {
        operation,
        mut world,
        identities,
    } = client;
    let empty_log = log_with_room(alloc)?;
    world.log = empty_log;
    world.swap_parts(outside, quota);
    let ran = run_noting(alloc, &operation, &head, world, moments)?;
    let NotedRun {
        mut world,
        ending,
        moments,
    } = ran;
    world.swap_parts(outside, quota);
    let log = mem::replace(&mut world.log, List::new());
    let client = ScriptedClient {
        operation,
        world,
        identities,
    };
    Ok(NotedInvocation {
        client,
        log,
        ending,
        moments,
    })
}

// A log without entries, with room for those of a run of some attempts.
fn log_with_room(alloc: Global) -> Result<List<Entry>, OutOfMemory>
    ensures { IfOk result (λ log. log ≡ []) }
{
    Ok(List::from_vec(Vec::with_capacity(alloc, LOG_ROOM)?))
}

/// What a run of the service's operation is begun with.
pub fn head_of(input: Payload, fuel: u64, stop: StopPoint) -> RunHead
    ensures { result ≡ head_of input fuel stop }
{
    RunHead {
        input,
        fuel,
        stop,
        output_kind: OUTPUT_KIND as u64,
        error_kind: ERROR_KIND as u64,
    }
}
