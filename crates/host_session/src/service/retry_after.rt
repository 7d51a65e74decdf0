//! How long a response asks to wait, by a header of it.
ghost use Rattle.std.specs.Prelude.{◌≡◌, option_copied, option_map};
ghost use Rattle.std.specs.Char.{is_ascii_digit};
ghost use Rattle.std.specs.List.{list_all};
ghost use Rattle.host_session.specs.RetryAfter.{decimal_number, delay_of, number_in};
ghost use Rattle.host_session.specs.RetryAfter.{retry_after_in, with_retry_after};

use http_header::HeaderValue;
use retry_policy::ClassifyRetry;
use smithy_context::InterceptorContext;
use smithy_types::{Headers, HttpResponse, RetryAction, Text};

/// Where a retry is indicated, and the response has a header of this name whose value is a decimal
/// number, the delay before the retry is so many units (`retry-after`, RFC 9110, section 10.2.3, has
/// seconds). At most it is `u64::MAX`.
#[derive(Drop)]
pub struct RetryAfterClassifier {
    /// The header's name, in letters of any case.
    pub name: Text,
    /// How many nanoseconds the unit has.
    pub unit: u64,
}

impl RetryAfterClassifier {
    // The delay that a response asks for.
    fn retry_after(&self, response: Option<&HttpResponse>) -> Option<u64>
        ensures { result ≡ retry_after_in self.now (option_copied response.entry) }
    {
        match response {
            Some(response) => self.delay_of(&response.headers),
            None => None,
        }
    }

    // The delay that the headers of a response ask for.
    fn delay_of(&self, headers: &Headers) -> Option<u64>
        ensures { result ≡ delay_of self.now headers.now }
    {
        match number_in(headers, self.name.as_str()) {
            Some(number) => Some(number.saturating_mul(self.unit)),
            None => None,
        }
    }
}

impl ClassifyRetry for RetryAfterClassifier {
    ghost use Rattle.std.specs.Prelude.{codes, pos};
    ghost use Rattle.host_session.specs.RetryAfter.{retry_after_in, with_retry_after};

    ghost called = { λ _. codes "Retry After" };

    ghost ranked = { λ _. pos 30 };

    ghost says = { λ c context verdict. with_retry_after (retry_after_in c context.view.response)
        verdict };

    fn name(&self) -> &str {
        "Retry After"
    }

    fn priority(&self) -> i8 {
        30
    }

    fn classify_retry_v2(&self, ctx: &InterceptorContext, previous: &RetryAction) -> RetryAction {
        with_retry_after(self.retry_after(ctx.response()), *previous)
    }
}

// The verdict with this delay, where it indicates a retry. No action keeps a verdict as it is.
fn with_retry_after(delay: Option<u64>, verdict: RetryAction) -> RetryAction
    ensures { result ≡ with_retry_after delay verdict }
{
    match (delay, verdict) {
        (Some(delay), RetryAction::RetryIndicated { kind, .. }) => RetryAction::RetryIndicated {
            kind,
            retry_after: Some(delay),
        },
        _ => RetryAction::NoActionIndicated,
    }
}

// The number that is the first value of a header.
fn number_in(headers: &Headers, name: &str) -> Option<u64>
    ensures { result ≡ number_in headers.now name.now }
{
    let map = headers.as_map()?;
    let value = map.get(name)?;
    number_of(value)
}

// The number that a value is.
#[tactic(auto, using(crate::proofs::Decimals::decimals))]
fn number_of(value: &HeaderValue) -> Option<u64>
    ensures { result ≡ decimal_number value.now.bytes }
{
    match value.to_str() {
        Ok(text) => decimal_number(text),
        Err(_) => None,
    }
}

// The number of 64 bits that decimal digits are.
#[tactic(auto, using(crate::proofs::Decimals::decimals))]
fn decimal_number(text: &str) -> Option<u64>
    ensures { result ≡ decimal_number text.now }
{
    if !all_digits(text.as_bytes()) {
        return None;
    }
    match text.parse::<u64>() {
        Ok(number) => Some(number),
        Err(_) => None,
    }
}

fn all_digits(bytes: &[u8]) -> bool
    ensures { result ≡ list_all is_ascii_digit bytes.now }
{
    bytes.iter().all(|byte| byte.is_ascii_digit())
}
