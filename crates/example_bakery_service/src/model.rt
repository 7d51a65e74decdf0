//! The service's model: what its two operations take and answer, and the error that both share.
ghost use Rattle.std.specs.Prelude.{◌≡◌};

use smithy_types::Text;
use std::alloc::AllocError;
use thiserror::Error;

/// The input of `PlaceOrder`.
#[derive(Debug, Drop)]
pub struct PlaceOrderInput {
    /// Which loaf is ordered.
    pub loaf: Text,
}

/// The output of `PlaceOrder`.
#[derive(Debug, Drop)]
pub struct PlaceOrderOutput {
    /// The order's id.
    pub order: Text,
}

/// The input of `GetOrder`.
#[derive(Debug, Drop)]
pub struct GetOrderInput {
    /// The order's id.
    pub order: Text,
}

impl Clone for GetOrderInput {
    ghost is_clone = { λ input copy. copy ≡ input };

    fn clone(&self) -> Result<GetOrderInput, AllocError> {
        Ok(GetOrderInput {
            order: self.order.clone()?,
        })
    }
}

/// How far an order is.
#[derive(Clone, Copy, Debug, PartialEq, Eq)]
pub enum OrderState {
    /// It is in the oven.
    Baking,
    /// It can be fetched.
    Ready,
}

/// The output of `GetOrder`.
#[derive(Clone, Copy, Debug, PartialEq, Eq)]
pub struct GetOrderOutput {
    /// How far the order is.
    pub state: OrderState,
}

/// An error of the service's model.
#[derive(Clone, Copy, Debug, PartialEq, Eq, Error)]
pub enum BakeryError {
    /// Too many orders came at once.
    #[error("the oven is busy")]
    OvenBusy,
    /// There is no order of this id.
    #[error("there is no such order")]
    NoSuchOrder,
}
