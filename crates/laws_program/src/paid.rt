//! What holds of the invocations that `client` prints. The function does nothing but call another
//! law: its contract is the law.

ghost use Rattle.laws_program.specs.Paid.Paid.{ClientsPay};

use laws_client::retries::settings_bound_attempts;

/// The print of a script's clients begins with its invocations in their order, and the sums of the
/// buckets that they leave. In each invocation a further attempt is made only where fewer were made
/// than the settings allow, and the bucket in force granted what it charges for the kind of the
/// failure: for a bucket of the script these are the script's costs. An invocation whose run is
/// whole begins as many attempts at most as its settings allow.
pub fn clients_pay()
    ensures { ClientsPay }
{
    settings_bound_attempts();
}
