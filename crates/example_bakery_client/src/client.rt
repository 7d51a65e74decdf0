//! The client of an operation: what it is built of, and how it is invoked.
ghost use Rattle.std.specs.List.{AllByRecursion};
ghost use Rattle.std.specs.Prelude.{◌≡◌, ◌++◌, List, true};
ghost use Rattle.example_bakery_service.specs.Model.{error_of, is_error};
ghost use Rattle.laws_client.specs.Retries.Attempting.{GrewAsAllowed, IsOfWholeRun};
ghost use Rattle.laws_client.specs.Retries.Telling.{TellsBuckets};
ghost use Rattle.client_components.specs.Paying.{Pays, prices_of};
ghost use Rattle.orchestrate.specs.Answered.{InputAnswered};
ghost use Rattle.orchestrate.specs.Growth.{GrewByAtMost};
ghost use Rattle.orchestrate.specs.Handing.{HadMemory};
ghost use Rattle.run_grammar.specs.declared.answer.Entry.{Entry};

use client_builder::OperationBuilder;
use client_components::laws::further_attempts_are_paid;
use client_components::{ClientTypes, RuntimeComponents};
use example_bakery_service::{BakeryDeserializer, BakeryError, BakerySerializer};
use http_schemes::{BearerAuthScheme, HttpIdentityResolver};
use laws_client::retries::{decisions_tell_the_bucket, settings_bound_attempts};
use orchestrate::{InvokeError, Operation};
use retry_quota::Quota;
use smithy_types::Wire;
use std::alloc::Global;

/// The builder of an operation of the service.
pub type BakeryBuilder<In, Out> = OperationBuilder<
    In,
    Out,
    BakeryError,
    BearerAuthScheme,
    HttpIdentityResolver,
    BakerySerializer,
    BakeryDeserializer,
>;

/// An operation of the service.
pub type BakeryOperation<In, Out> = Operation<In, Out, BakeryError>;

/// Invokes an operation of the service. At most `fuel` questions are asked. An output or an
/// `SdkError` is the outcome of one whole run; each further attempt of it began only where fewer
/// were made than the settings allow, and the bucket granted its cost, so there are at most so many
/// attempts. The last decision's note tells what the bucket holds afterwards.
pub fn invoke<T: ClientTypes, In: Wire + Drop, Out: Wire + Drop>(
    alloc: Global,
    operation: &BakeryOperation<In, Out>,
    client: &mut RuntimeComponents<T>,
    input: In,
    fuel: u64,
) -> Result<Out, InvokeError<BakeryError>>
    ensures at_most_fuel { GrewByAtMost fuel client.old.log client.new.log }
    ensures whole_run { InputAnswered In.accepts In.reads_as Out.accepts Out.reads_as is_error
        (λ p error. error ≡ error_of p.bytes) input fuel result client.old.log client.new.log }
    ensures paid { HadMemory result → (l : List Entry) × (client.new.log ≡ client.old.log ++ l)
        × AllByRecursion (λ e.
        Pays (prices_of (T.Quota.meaning client.new.parts.quota)) e.question e.answer) l }
    ensures attempts { IsOfWholeRun result → GrewAsAllowed client.old.log client.new.log }
    ensures bucket { HadMemory result → (l : List Entry) × (client.new.log ≡ client.old.log ++ l)
        × TellsBuckets (T.Quota.meaning client.new.parts.quota) l }
{
    settings_bound_attempts();
    further_attempts_are_paid::<T>();
    decisions_tell_the_bucket::<T>();
    operation.invoke(alloc, client, input, fuel)
}
