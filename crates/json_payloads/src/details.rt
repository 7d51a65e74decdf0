//! Errors of a service's model with members of their own: the structure that stands in the body.
ghost use Rattle.std.specs.Prelude.{◌≡◌, true, IfOk};
ghost use Rattle.serde_json.specs.View.{view};
ghost use Rattle.json_payloads.specs.Details.{details_at, details_in};
ghost use Rattle.json_payloads.specs.Forms.{option_fits};
ghost use Rattle.json_payloads.specs.Lists.{null_or};
ghost use Rattle.json_payloads.specs.Reading.{Reads};

use crate::forms::read_present;
use crate::payloads::{bytes_of, read_bytes};
use crate::{JsonForm, JsonPayload, ModeledError, ReadError, Value};
use smithy_types::{ErrorKind, OutOfMemory, Payload, ProvideErrorKind, Wire};
use std::alloc::Global;
use std::error::Error;
use std::fmt;

/// An error of a service, with the structure that came with it. Its payload is told by the status
/// alone. So where a body is no such structure, as without a member that must be there or as the
/// HTML of a gateway, it is an error without details.
#[derive(Debug, Drop)]
pub struct DetailedError<E, D> {
    /// Which error it is.
    pub error: E,
    /// What the service says of it. `None` where the body isn't the details.
    pub details: Option<D>,
}

impl<E: fmt::Display, D> fmt::Display for DetailedError<E, D> {
    fn fmt<W: fmt::Write>(&self, f: &mut fmt::Formatter<W>) -> fmt::Result {
        write!(f, "{}", self.error)
    }
}

impl<E: Error, D: fmt::Debug + Drop> Error for DetailedError<E, D> {}

impl<E: ModeledError + Drop, D: JsonPayload + Drop> Wire for DetailedError<E, D> {
    ghost use Rattle.std.specs.Prelude.{◌≡◌, Some, is_some};
    ghost use Rattle.json_payloads.specs.Details.{detailed_in, one_detailed};

    ghost accepts = { λ p. is_some (detailed_in E.of_status D.form p) };

    ghost reads_as = { λ p error. detailed_in E.of_status D.form p ≡ Some error };

    ghost one_value = { one_detailed E.of_status D.form };

    fn to_payload(&self, alloc: Global) -> Result<Payload, OutOfMemory> {
        let payload = details_payload(alloc, self.error.status(), &self.details)?;
        Ok(payload)
    }

    fn from_payload(
        alloc: Global,
        payload: &Payload,
    ) -> Result<Option<DetailedError<E, D>>, OutOfMemory> {
        match E::of_status(payload.kind) {
            Some(error) => {
                let details = read_details(alloc, payload)?;
                Ok(Some(DetailedError { error, details }))
            }
            None => Ok(None),
        }
    }
}

impl<E: ModeledError + Drop, D: JsonPayload + Drop> ProvideErrorKind for DetailedError<E, D> {
    ghost use Rattle.json_payloads.specs.Errors.{retry_in};

    ghost kind = { λ error. E.retry error.error };

    ghost kind_in = { retry_in E.of_status E.retry };

    fn retryable_error_kind(&self) -> Option<ErrorKind> {
        self.error.retry()
    }

    fn kind_of(payload: &Payload) -> Option<ErrorKind> {
        match E::of_status(payload.kind) {
            Some(error) => error.retry(),
            None => None,
        }
    }
}

// The payload of an error with these details: their JSON, or null.
fn details_payload<D: JsonPayload>(
    alloc: Global,
    kind: u32,
    details: &Option<D>,
) -> Result<Payload, OutOfMemory>
    ensures kind { IfOk result (λ p. p.kind ≡ kind) }
    ensures details { IfOk result (λ p. details_in D.form p ≡ details.now) }
{
    let value = print_details(alloc, details)?;
    let bytes = bytes_of(alloc, &value)?;
    Ok(Payload { kind, bytes })
}

// What stands for the details: null where there are none.
fn print_details<D: JsonForm>(alloc: Global, details: &Option<D>) -> Result<Value, OutOfMemory>
    ensures value { IfOk result (λ v. view v ≡ null_or D.form.prints details.now) }
    ensures fits { IfOk result (λ _. option_fits D.form.fits details.now ≡ true) }
{
    match details {
        Some(details) => details.print(alloc),
        None => Ok(Value::Null),
    }
}

// The details of an error. `None` where the payload isn't the JSON of such a value.
fn read_details<D: JsonForm>(alloc: Global, payload: &Payload) -> Result<Option<D>, OutOfMemory>
    ensures { IfOk result (λ details. details ≡ details_in D.form payload.now) }
{
    match details_of(alloc, payload) {
        Ok(details) => Ok(details),
        Err(ReadError::Refused(_)) => Ok(None),
        Err(ReadError::Memory) => Err(OutOfMemory),
    }
}

fn details_of<D: JsonForm>(alloc: Global, payload: &Payload) -> Result<Option<D>, ReadError>
    ensures { Reads result (details_at D.form payload.now) }
{
    let value = read_bytes(alloc, payload.bytes.as_slice())?;
    read_present(alloc, &value)
}
