//! Why an answer comes, whatever outside there is. Each law is the contract of a function without a
//! body.
ghost use Rattle.std.specs.Prelude.{◌≡◌, List, true};
ghost use Rattle.smithy_types.specs.Chain.{Chained};
ghost use Rattle.outside.specs.Calls.{OutsideCall};
ghost use Rattle.outside.specs.Faults.{HasRisen, hands_out_failure};
ghost use Rattle.client_call.specs.Causes.{AbsentWithoutSleeps, BodiesAreWhole, FailsWhereTaken};
ghost use Rattle.client_call.specs.Causes.{NeverPending, NothingToEnd, PendingWhileItRuns};
ghost use Rattle.client_call.specs.Causes.{PendsWithThePoll, UploadsNeverStall, WasMade};

use outside::Outside;

/// A Start is Absent exactly where the client was built without sleeps.
pub fn a_start_is_absent_exactly_without_sleeps()
    ensures { AbsentWithoutSleeps }
{}

/// A Wait is pending exactly where the role's sleep was asked and wasn't over.
pub fn a_wait_is_pending_exactly_while_its_sleep_runs()
    ensures { PendingWhileItRuns }
{}

/// A Load fails exactly where the body's bytes are gone.
pub fn a_load_fails_exactly_where_the_body_is_taken()
    ensures { FailsWhereTaken }
{}

/// A Load is never pending.
pub fn a_load_is_never_pending()
    ensures { NeverPending }
{}

/// A Transmit is pending only where the connector had no response in this ask.
pub fn a_transmit_is_pending_only_with_its_poll()
    ensures { PendsWithThePoll }
{}

/// A Transmit fails only where the connector did in this ask: an upload that is watched was read
/// before the request was sent, so no look at it fails.
pub fn a_transmit_fails_only_with_its_poll()
    ensures { UploadsNeverStall }
{}

/// Where one of some calls handed a failure out, the outside's count of them rose.
pub fn a_failure_raises_the_count<X: Outside>()
    ensures { (old : X) (new : X) (call : OutsideCall) (calls : List OutsideCall) →
        Chained X.makes old calls new → WasMade call calls → hands_out_failure call ≡ true →
        HasRisen (X.faults old) (X.faults new) }
{}

/// A body is Read at its end with all bytes of data, of the earlier asks too, in order. It is
/// pending only where there was no frame or behind 64 frames, and no byte is lost then.
pub fn a_body_is_read_whole()
    ensures { BodiesAreWhole }
{}

/// Where nothing is open, nothing is ended.
pub fn at_rest_nothing_is_ended()
    ensures { NothingToEnd }
{}
