//! A bakery's service, as a code generator would write it: its model, the payloads that its values
//! are, and its protocol, with an interceptor and a classifier that go with it.
#![tactic(auto)]

mod model;
mod payloads;
mod sending;
mod service;

pub use model::{
    BakeryError, GetOrderInput, GetOrderOutput, OrderState, PlaceOrderInput, PlaceOrderOutput,
};
pub use payloads::{
    ERROR, GET_ORDER_INPUT, GET_ORDER_OUTPUT, PLACE_ORDER_INPUT, PLACE_ORDER_OUTPUT,
};
pub use sending::{ClientNameInterceptor, TooEarlyClassifier};
pub use service::{BakeryDeserializer, BakerySerializer};
