//! A waiter that asks for an order until it is ready.
ghost use Rattle.std.specs.Prelude.{◌≡◌, ◌<◌, ◌+◌, ◌^◌, IfOk, Ok};
ghost use Rattle.example_bakery_client.specs.Waiting.{Says, WaitsBy};
ghost use Rattle.example_bakery_service.specs.declared.model.OrderState.TheVariants.{Ready};

use client_operations::{SleepingTypes, Watch};
use example_bakery_service::{BakeryError, GetOrderInput, GetOrderOutput, OrderState};
use smithy_types::AcceptorState;
use waiters::backoff::SECOND;
use waiters::{FinalPoll, WaiterError};

/// How a wait for an order ends.
pub type Ending = Result<
    FinalPoll<GetOrderOutput, BakeryError>,
    WaiterError<GetOrderOutput, BakeryError>,
>;

/// Asks for the order until it is ready, with 2 to 120 seconds between two polls, and at most 300
/// seconds in all. The fuel bounds the polls and the asks of sleeps, and is spent where the wait is
/// `Unfinished`. A wait that succeeds ends with an order that is ready; each other ending is that
/// of its walk of polls and delays. Each poll is one invocation of the operation for the order that
/// is watched, and what the waiter asks of clock and sleeps is asked of the client's outside.
pub fn wait<T: SleepingTypes>(
    watch: &mut Watch<T, GetOrderInput, GetOrderOutput, BakeryError>,
    fuel: u64,
) -> Ending
    requires { watch.old.unready + fuel < 2 ^ 64 }
    ensures ready { IfOk result (λ last. last.result ≡ Ok (record { state = Ready })) }
    ensures waits { WaitsBy T.Outside.makes 2000000000 120000000000 300000000000 watch.old fuel
        result watch.new }
{
    watch.wait(accepted, 2 * SECOND, 120 * SECOND, 300 * SECOND, fuel)
}

// Whether the order is ready. An error of the model ends the wait.
fn accepted(seen: Result<&GetOrderOutput, &BakeryError>) -> AcceptorState
    ensures { Says seen.entry result }
{
    match seen {
        Ok(output) => match output.state {
            OrderState::Baking => AcceptorState::Retry,
            OrderState::Ready => AcceptorState::Success,
        },
        Err(_) => AcceptorState::Failure,
    }
}
