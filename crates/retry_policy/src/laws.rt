//! What holds of every decision. The functions do nothing: their contracts are the laws.
ghost use Rattle.std.specs.Prelude.{◌≡◌, ◌<◌, ◌≤◌, ◌^◌, ℕ, false, true, Option, Some, List, ◌++◌};
ghost use Rattle.std.specs.Prelude.{Result, IfSome};
ghost use Rattle.smithy_types.specs.Chain.{Chained};
ghost use Rattle.smithy_types.specs.declared.kinds.ErrorKind.{ErrorKind};
ghost use Rattle.smithy_types.specs.declared.notes.Choice.TheVariants.{No, Delay};
ghost use Rattle.smithy_types.specs.declared.notes.Reason.TheVariants.{Granted};
ghost use Rattle.smithy_types.specs.declared.notes.RetryAction.TheVariants.{RetryIndicated};
ghost use Rattle.retry_quota.specs.Calls.{Calls, Limiters};
ghost use Rattle.retry_quota.specs.History.{Entry};
ghost use Rattle.retry_quota.specs.Meaning.{Meaning, book_at};
ghost use Rattle.retry_quota.specs.declared.permit.Permit.{Permit};
ghost use Rattle.retry_policy.specs.Backoff.{is_v2_1};
ghost use Rattle.retry_policy.specs.Decision.{Case, deciding, decision};
ghost use Rattle.retry_policy.specs.Steps.{HasCost, permits_of, steps_of};

/// A further attempt comes only where a classifier indicated a retry, fewer attempts than the most
/// were made, and the bucket granted what it asked for.
pub fn a_further_attempt_is_indicated_and_paid()
    ensures indicated { (c : Case) (held : Option Permit) (reply : Result (Unit {0}) ℕ)
        (grant : Option ℕ) (wait : ℕ)
        → (decision c held reply grant).choice ≡ Delay wait → (kind : ErrorKind)
        × (retry_after : Option ℕ) × (c.verdict ≡ RetryIndicated kind retry_after) }
    ensures counted { (c : Case) (held : Option Permit) (reply : Result (Unit {0}) ℕ)
        (grant : Option ℕ) (wait : ℕ)
        → (decision c held reply grant).choice ≡ Delay wait → c.attempt < c.retry.max_attempts }
    ensures paid { (c : Case) (held : Option Permit) (reply : Result (Unit {0}) ℕ)
        (grant : Option ℕ) (wait : ℕ)
        → (decision c held reply grant).choice ≡ Delay wait → (amount : ℕ) × (grant ≡ Some amount) }
{}

/// But for version 2.1 of the specification no further attempt waits longer than the longest
/// backoff.
pub fn a_wait_is_at_most_the_longest_backoff()
    ensures { (c : Case) (held : Option Permit) (reply : Result (Unit {0}) ℕ) (grant : Option ℕ)
        (wait : ℕ)
        → c.word < 2 ^ 64 → is_v2_1 c.retry.spec ≡ false →
        (decision c held reply grant).choice ≡ Delay wait → wait ≤ c.retry.max_backoff }
{}

/// A decision is granted one permit where a further attempt comes, none where none comes, and never
/// more than one.
pub fn a_decision_is_granted_one_permit_at_most()
    ensures most { (c : Case) (held : Option Permit) (reply : Result (Unit {0}) ℕ)
        (grant : Option ℕ) → permits_of (decision c held reply grant).calls ≤ 1 }
    ensures one { (c : Case) (held : Option Permit) (reply : Result (Unit {0}) ℕ) (grant : Option ℕ)
        (wait : ℕ)
        → (decision c held reply grant).choice ≡ Delay wait →
        permits_of (decision c held reply grant).calls ≡ 1 }
    ensures none { (c : Case) (held : Option Permit) (reply : Result (Unit {0}) ℕ)
        (grant : Option ℕ)
        → (decision c held reply grant).choice ≡ No →
        permits_of (decision c held reply grant).calls ≡ 0 }
{}

/// Where a quota tells its steps, they are the former ones with those of the decision behind.
pub fn a_decision_adds_its_steps<L>()
    ensures { (means : Limiters L) (m n : Meaning L) (c : Case) (held : Option Permit)
        (reply : Result (Unit {0}) ℕ) (grant : Option ℕ) (entries : List Entry)
        → m.entries ≡ Some entries → Chained (Calls means) m (decision c held reply grant).calls n
        → n.entries ≡ Some (entries ++ steps_of m.has (decision c held reply grant).calls) }
{}

/// Where a quota tells its books, a retry is granted only where the bucket's book had its cost:
/// once a success was settled, and after a failure before the decision.
pub fn a_granted_retry_was_in_the_book<L>()
    ensures settled { (means : Limiters L) (m n : Meaning L) (c : Case) (held : Option Permit)
        (reply : Result (Unit {0}) ℕ) (grant : Option ℕ) (cost : ℕ)
        → Chained (Calls means) m (deciding c c.verdict held reply grant).calls n →
        (deciding c c.verdict held reply grant).reason ≡ Granted cost
        → IfSome (book_at m c.bucket) (HasCost c) }
    ensures failed { (means : Limiters L) (m n : Meaning L) (c : Case) (held : Option Permit)
        (reply : Result (Unit {0}) ℕ) (grant : Option ℕ) (cost : ℕ)
        → c.failed ≡ true → Chained (Calls means) m (decision c held reply grant).calls n →
        (decision c held reply grant).reason ≡ Granted cost
        → IfSome (book_at m c.bucket) (HasCost c) }
{}
