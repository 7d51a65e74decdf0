//! What is open is ended, and what is pending is given up.
ghost use Rattle.std.specs.Prelude.{◌≡◌};
ghost use Rattle.smithy_types.specs.Chain.{Chained};
ghost use Rattle.client_call.specs.Ending.{abandoning, call_without, ending_call, ending_calls};
ghost use Rattle.client_call.specs.Ending.{sleeps_without};
ghost use Rattle.client_call.specs.Sleeping.{no_sleeps};

use crate::sleeping::{end_all_sleeps, end_role};
use crate::{Call, Sleeps};
use outside::Outside;
use run_grammar::{Abandonable, Answer, Role};

/// Ends the call, where one is open.
pub fn end_call<X: Outside>(call: &mut Call, outside: &mut X)
    ensures call { call.new ≡ Call.Idle }
    ensures calls { Chained X.makes outside.old (ending_call call.old) outside.new }
{
    drop_call(call, outside);
    *call = Call::Idle;
}

// Drops the call at the outside, where one is open.
fn drop_call<X: Outside>(call: &mut Call, outside: &mut X)
    ensures { Chained X.makes outside.old (ending_call call.old) outside.new }
{
    match call {
        Call::Idle => {}
        _ => {
            call.quiet(outside);
            outside.drop_call();
        }
    }
}

/// Ends the call and every sleep that is open, as it is before a run and where the outside is
/// exchanged.
pub fn end_all<X: Outside>(sleeps: &mut Sleeps, call: &mut Call, outside: &mut X)
    ensures sleeps { sleeps.new ≡ no_sleeps }
    ensures call { call.new ≡ Call.Idle }
    ensures calls { Chained X.makes outside.old (ending_calls sleeps.old call.old) outside.new }
{
    end_call(call, outside);
    end_all_sleeps(sleeps, outside);
}

/// Gives up what is pending here: the call, or the sleep of a role. What else can be pending is
/// none of these parts, and nothing is done for it.
pub fn abandon<X: Outside>(
    abandoned: Abandonable,
    sleeps: &mut Sleeps,
    call: &mut Call,
    outside: &mut X,
) -> Answer
    ensures answer { result ≡ Answer.Abandoned }
    ensures sleeps { sleeps.new ≡ sleeps_without abandoned sleeps.old }
    ensures call { call.new ≡ call_without abandoned call.old }
    ensures calls { Chained X.makes outside.old
        (abandoning abandoned sleeps.old call.old) outside.new }
{
    end_pending(abandoned, sleeps, call, outside);
    Answer::Abandoned
}

// Ends the call or the sleep that is pending.
fn end_pending<X: Outside>(
    abandoned: Abandonable,
    sleeps: &mut Sleeps,
    call: &mut Call,
    outside: &mut X,
)
    ensures sleeps { sleeps.new ≡ sleeps_without abandoned sleeps.old }
    ensures call { call.new ≡ call_without abandoned call.old }
    ensures calls { Chained X.makes outside.old
        (abandoning abandoned sleeps.old call.old) outside.new }
{
    match abandoned {
        Abandonable::Load | Abandonable::Choose | Abandonable::Endpoint => {}
        Abandonable::Transmit | Abandonable::Body => end_call(call, outside),
        Abandonable::WaitSend => end_role(sleeps, outside, Role::Send),
        Abandonable::WaitRetry => end_role(sleeps, outside, Role::Retry),
        Abandonable::WaitLongPoll => end_role(sleeps, outside, Role::LongPoll),
    }
}
