//! The lines of what happened.

use anyhow::Result;
use retry_quota::TokenBucket;
use waiter_fleet::FleetEvent;

/// Prints what happened, but for charges and delays of 0.
pub fn print_event(rt: HostRuntime, event: &FleetEvent) -> Result<()> {
    match event {
        FleetEvent::Poll {
            waiter,
            number,
            moment,
            ..
        } => println!(rt; "[\"poll\",{waiter},{number},{moment}]")?,
        FleetEvent::Sleep { waiter, nanos, .. } => {
            if *nanos > 0 {
                println!(rt; "[\"sleep\",{waiter},{nanos}]")?;
            }
        }
        FleetEvent::Charged { .. } => {}
        FleetEvent::Refused { waiter, cost, .. } => println!(rt; "[\"refused\",{waiter},{cost}]")?,
        FleetEvent::End { waiter, end } => {
            println!(rt; "[\"end\",{waiter},\"{end:?}\"]")?;
        }
    }
    Ok(())
}

/// Prints the sums of the bucket.
pub fn print_bucket(rt: HostRuntime, bucket: &TokenBucket) -> Result<()> {
    let sums = bucket.sums();
    println!(rt;
        "[\"bucket\",0,[{},{},{},{},{}]]",
        sums.capacity, sums.granted, sums.available, sums.held, sums.forgotten
    )?;
    Ok(())
}
