//! Prints the texts of errors of waiters, strategies and fleets, which no clause states.

use anyhow::Result;
use retry_policy::StrategyError;
use smithy_types::{Fault, FaultKind, SdkError, Text};
use std::fmt;
use waiter_fleet::FleetError;
use waiters::{FinalPoll, WaiterError};

pub fn print(rt: &HostRuntime) -> Result<()> {
    print_waits(rt)?;
    print_text(rt, &StrategyError::MissingSetting)?;
    print_text(rt, &StrategyError::OutOfMemory)?;
    print_text(rt, &FleetError::BadPlan { waiter: 7 })?;
    print_text(rt, &FleetError::OutOfMemory)
}

// The error's text, on a line.
fn print_text<T: fmt::Display>(rt: &HostRuntime, error: &T) -> Result<()> {
    println!(rt; "{error}")?;
    Ok(())
}

// Why a waiter ended without success.
fn print_waits(rt: &HostRuntime) -> Result<()> {
    let errors: [WaiterError<u8, u8>; 5] = [
        WaiterError::OperationFailed(SdkError::DispatchFailure(fault())),
        WaiterError::FailureState(FinalPoll { result: Ok(0) }),
        WaiterError::ExceededMaxWait {
            max_wait: 300,
            elapsed: 299,
            poll_count: 12,
        },
        WaiterError::Unfinished,
        WaiterError::OutOfMemory,
    ];
    for error in &errors {
        print_text(rt, error)?;
    }
    Ok(())
}

// A fault whose text no error shows.
fn fault() -> Fault {
    Fault {
        kind: FaultKind::Timeout,
        text: Text::from_static("hidden"),
    }
}
