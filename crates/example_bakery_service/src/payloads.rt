//! The payloads that the model's values are: a kind each, and the bytes of a body.
ghost use Rattle.std.specs.Prelude.{◌≡◌, true, false, MatchOption};
ghost use Rattle.example_bakery_service.specs.Model.{
  error_name,
  error_of,
  is_error,
  is_state,
  kind_of_error,
  state_name,
  state_of,
};

use crate::model::{
    BakeryError, GetOrderInput, GetOrderOutput, OrderState, PlaceOrderInput, PlaceOrderOutput,
};
use smithy_types::{Blob, ErrorKind, OutOfMemory, Payload, ProvideErrorKind, Wire};
use std::alloc::Global;
use text_payloads::{read_text, text_payload};

/// The kind of an input of `PlaceOrder`.
pub const PLACE_ORDER_INPUT: u32 = 1;

/// The kind of an output of `PlaceOrder`.
pub const PLACE_ORDER_OUTPUT: u32 = 2;

/// The kind of an error.
pub const ERROR: u32 = 3;

/// The kind of an input of `GetOrder`.
pub const GET_ORDER_INPUT: u32 = 4;

/// The kind of an output of `GetOrder`.
pub const GET_ORDER_OUTPUT: u32 = 5;

impl Wire for PlaceOrderInput {
    ghost use Rattle.std.specs.Prelude.{◌≡◌};
    ghost use Rattle.std.proofs.Common.{◌∙◌, sym};
    ghost use Rattle.text_payloads.specs.Text.{is_text};

    ghost accepts = { is_text 1 };

    ghost reads_as = { λ p input. input ≡ record { loaf = p.bytes } };

    ghost one_value = { λ p x y h g. h ∙ sym g };

    fn to_payload(&self, alloc: Global) -> Result<Payload, OutOfMemory> {
        text_payload(alloc, PLACE_ORDER_INPUT, &self.loaf)
    }

    fn from_payload(
        alloc: Global,
        payload: &Payload,
    ) -> Result<Option<PlaceOrderInput>, OutOfMemory> {
        match read_text(alloc, PLACE_ORDER_INPUT, payload)? {
            Some(loaf) => Ok(Some(PlaceOrderInput { loaf })),
            None => Ok(None),
        }
    }
}

impl Wire for PlaceOrderOutput {
    ghost use Rattle.std.specs.Prelude.{◌≡◌};
    ghost use Rattle.std.proofs.Common.{◌∙◌, sym};
    ghost use Rattle.text_payloads.specs.Text.{is_text};

    ghost accepts = { is_text 2 };

    ghost reads_as = { λ p output. output ≡ record { order = p.bytes } };

    ghost one_value = { λ p x y h g. h ∙ sym g };

    fn to_payload(&self, alloc: Global) -> Result<Payload, OutOfMemory> {
        text_payload(alloc, PLACE_ORDER_OUTPUT, &self.order)
    }

    fn from_payload(
        alloc: Global,
        payload: &Payload,
    ) -> Result<Option<PlaceOrderOutput>, OutOfMemory> {
        match read_text(alloc, PLACE_ORDER_OUTPUT, payload)? {
            Some(order) => Ok(Some(PlaceOrderOutput { order })),
            None => Ok(None),
        }
    }
}

impl Wire for GetOrderInput {
    ghost use Rattle.std.specs.Prelude.{◌≡◌};
    ghost use Rattle.std.proofs.Common.{◌∙◌, sym};
    ghost use Rattle.text_payloads.specs.Text.{is_text};

    ghost accepts = { is_text 4 };

    ghost reads_as = { λ p input. input ≡ record { order = p.bytes } };

    ghost one_value = { λ p x y h g. h ∙ sym g };

    fn to_payload(&self, alloc: Global) -> Result<Payload, OutOfMemory> {
        text_payload(alloc, GET_ORDER_INPUT, &self.order)
    }

    fn from_payload(
        alloc: Global,
        payload: &Payload,
    ) -> Result<Option<GetOrderInput>, OutOfMemory> {
        match read_text(alloc, GET_ORDER_INPUT, payload)? {
            Some(order) => Ok(Some(GetOrderInput { order })),
            None => Ok(None),
        }
    }
}

impl Wire for GetOrderOutput {
    ghost use Rattle.std.specs.Prelude.{◌≡◌};
    ghost use Rattle.std.proofs.Common.{◌∙◌, sym};
    ghost use Rattle.example_bakery_service.specs.Model.{is_state, state_of};

    ghost accepts = { is_state };

    ghost reads_as = { λ p output. output ≡ record { state = state_of p.bytes } };

    ghost one_value = { λ p x y h g. h ∙ sym g };

    fn to_payload(&self, alloc: Global) -> Result<Payload, OutOfMemory> {
        Ok(Payload {
            kind: GET_ORDER_OUTPUT,
            bytes: Blob::from_slice(alloc, state_name(self.state))?,
        })
    }

    fn from_payload(
        _alloc: Global,
        payload: &Payload,
    ) -> Result<Option<GetOrderOutput>, OutOfMemory> {
        match read_state(payload) {
            Some(state) => Ok(Some(GetOrderOutput { state })),
            None => Ok(None),
        }
    }
}

// How a state is spelled.
fn state_name(state: OrderState) -> &'static [u8]
    ensures { result.now ≡ state_name state }
{
    match state {
        OrderState::Baking => b"baking",
        OrderState::Ready => b"ready",
    }
}

// The state that a payload is.
fn read_state(payload: &Payload) -> Option<OrderState>
    ensures { MatchOption result
        (is_state payload.now ≡ false)
        (λ state. (is_state payload.now ≡ true) × (state ≡ state_of payload.now.bytes)) }
{
    let bytes = payload.bytes.as_slice();
    if payload.kind != GET_ORDER_OUTPUT {
        None
    } else if bytes == b"baking".as_slice() {
        Some(OrderState::Baking)
    } else if bytes == b"ready".as_slice() {
        Some(OrderState::Ready)
    } else {
        None
    }
}

impl Wire for BakeryError {
    ghost use Rattle.std.specs.Prelude.{◌≡◌};
    ghost use Rattle.std.proofs.Common.{◌∙◌, sym};
    ghost use Rattle.example_bakery_service.specs.Model.{is_error, error_of};

    ghost accepts = { is_error };

    ghost reads_as = { λ p error. error ≡ error_of p.bytes };

    ghost one_value = { λ p x y h g. h ∙ sym g };

    fn to_payload(&self, alloc: Global) -> Result<Payload, OutOfMemory> {
        Ok(Payload {
            kind: ERROR,
            bytes: Blob::from_slice(alloc, error_name(*self))?,
        })
    }

    fn from_payload(_alloc: Global, payload: &Payload) -> Result<Option<BakeryError>, OutOfMemory> {
        Ok(read_error(payload))
    }
}

impl ProvideErrorKind for BakeryError {
    ghost use Rattle.example_bakery_service.specs.Model.{kind_of_error, kind_in};

    ghost kind = { kind_of_error };

    ghost kind_in = { kind_in };

    fn retryable_error_kind(&self) -> Option<ErrorKind> {
        kind_of_error(*self)
    }

    fn kind_of(payload: &Payload) -> Option<ErrorKind> {
        match read_error(payload) {
            Some(error) => kind_of_error(error),
            None => None,
        }
    }
}

// How an error is spelled.
fn error_name(error: BakeryError) -> &'static [u8]
    ensures { result.now ≡ error_name error }
{
    match error {
        BakeryError::OvenBusy => b"OvenBusy",
        BakeryError::NoSuchOrder => b"NoSuchOrder",
    }
}

// The error that a payload is.
fn read_error(payload: &Payload) -> Option<BakeryError>
    ensures { MatchOption result
        (is_error payload.now ≡ false)
        (λ error. (is_error payload.now ≡ true) × (error ≡ error_of payload.now.bytes)) }
{
    let bytes = payload.bytes.as_slice();
    if payload.kind != ERROR {
        None
    } else if bytes == b"OvenBusy".as_slice() {
        Some(BakeryError::OvenBusy)
    } else if bytes == b"NoSuchOrder".as_slice() {
        Some(BakeryError::NoSuchOrder)
    } else {
        None
    }
}

// A busy oven throttles, and an order that isn't there tells nothing of a retry.
fn kind_of_error(error: BakeryError) -> Option<ErrorKind>
    ensures { result ≡ kind_of_error error }
{
    match error {
        BakeryError::OvenBusy => Some(ErrorKind::ThrottlingError),
        BakeryError::NoSuchOrder => None,
    }
}
