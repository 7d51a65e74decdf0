//! Building a limiter from chosen numbers.
ghost use Rattle.std.specs.Prelude.{◌≡◌, Some};
ghost use Rattle.rate_limit.specs.Builder.{built, unset};

use crate::ClientRateLimiter;

/// Builds a limiter. A part that isn't set is as in `ClientRateLimiter::default`. Amounts are in
/// millionths of a token, and rates in millionths of a token per second.
#[derive(Clone, Debug, Drop)]
pub struct ClientRateLimiterBuilder {
    /// How much a second adds.
    pub token_refill_rate: Option<u64>,
    /// The most that it holds.
    pub maximum_bucket_capacity: Option<u64>,
    /// What it holds at first.
    pub current_bucket_capacity: Option<u64>,
    /// The rate that was measured so far.
    pub tokens_retrieved_per_second: Option<u64>,
}

impl ClientRateLimiterBuilder {
    /// A builder with nothing set.
    pub fn new() -> ClientRateLimiterBuilder
        ensures { result ≡ unset }
    {
        ClientRateLimiterBuilder {
            token_refill_rate: None,
            maximum_bucket_capacity: None,
            current_bucket_capacity: None,
            tokens_retrieved_per_second: None,
        }
    }

    /// Sets what a second adds to the capacity.
    pub fn token_refill_rate(mut self, rate: u64) -> ClientRateLimiterBuilder
        ensures { result ≡ record self { token_refill_rate = Some rate } }
    {
        self.token_refill_rate = Some(rate);
        self
    }

    /// Sets or clears what a second adds to the capacity.
    pub fn set_token_refill_rate(&mut self, rate: Option<u64>) -> &mut ClientRateLimiterBuilder
        ensures lent { result.ghost_name ≡ self.entry.ghost_name }
        ensures set { result.now ≡ record self.old { token_refill_rate = rate } }
    {
        self.token_refill_rate = rate;
        self
    }

    /// Sets the most that the capacity may be.
    pub fn maximum_bucket_capacity(mut self, most: u64) -> ClientRateLimiterBuilder
        ensures { result ≡ record self { maximum_bucket_capacity = Some most } }
    {
        self.maximum_bucket_capacity = Some(most);
        self
    }

    /// Sets or clears the most that the capacity may be.
    pub fn set_maximum_bucket_capacity(
        &mut self,
        most: Option<u64>,
    ) -> &mut ClientRateLimiterBuilder
        ensures lent { result.ghost_name ≡ self.entry.ghost_name }
        ensures set { result.now ≡ record self.old { maximum_bucket_capacity = most } }
    {
        self.maximum_bucket_capacity = most;
        self
    }

    /// Sets the capacity. One above the most that it may be counts as the most.
    pub fn current_bucket_capacity(mut self, capacity: u64) -> ClientRateLimiterBuilder
        ensures { result ≡ record self { current_bucket_capacity = Some capacity } }
    {
        self.current_bucket_capacity = Some(capacity);
        self
    }

    /// Sets or clears the capacity.
    pub fn set_current_bucket_capacity(
        &mut self,
        capacity: Option<u64>,
    ) -> &mut ClientRateLimiterBuilder
        ensures lent { result.ghost_name ≡ self.entry.ghost_name }
        ensures set { result.now ≡ record self.old { current_bucket_capacity = capacity } }
    {
        self.current_bucket_capacity = capacity;
        self
    }

    /// Sets the measured rate of requests.
    pub fn tokens_retrieved_per_second(mut self, rate: u64) -> ClientRateLimiterBuilder
        ensures { result ≡ record self { tokens_retrieved_per_second = Some rate } }
    {
        self.tokens_retrieved_per_second = Some(rate);
        self
    }

    /// Sets or clears the measured rate of requests.
    pub fn set_tokens_retrieved_per_second(
        &mut self,
        rate: Option<u64>,
    ) -> &mut ClientRateLimiterBuilder
        ensures lent { result.ghost_name ≡ self.entry.ghost_name }
        ensures set { result.now ≡ record self.old { tokens_retrieved_per_second = rate } }
    {
        self.tokens_retrieved_per_second = rate;
        self
    }

    /// The limiter, which no request has been counted in and which refuses nothing yet.
    pub fn build(self) -> ClientRateLimiter
        ensures { result ≡ built self }
    {
        ClientRateLimiter::with_numbers(
            self.token_refill_rate.unwrap_or(0),
            self.maximum_bucket_capacity.unwrap_or(u64::MAX),
            self.current_bucket_capacity.unwrap_or(0),
            self.tokens_retrieved_per_second.unwrap_or(0),
        )
    }
}

/// The same as `new`.
impl Default for ClientRateLimiterBuilder {
    ghost is_default = { λ builder. builder ≡ unset };

    fn default() -> ClientRateLimiterBuilder {
        ClientRateLimiterBuilder::new()
    }
}
