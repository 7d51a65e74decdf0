//! The upload of a request, as it is watched.
ghost use Rattle.std.specs.Prelude.{◌≡◌, IfOk, OnErr};
ghost use Rattle.smithy_types.specs.Chain.{ByCalls, Chained};
ghost use Rattle.client_call.specs.Uploading.{Looks, Watches, body_bytes};

use crate::WholeBody;
use body_guard::{ThroughputReadingBody, UploadThroughput, UploadThroughputCheck};
use outside::Outside;
use smithy_types::{Body, Fault, OutOfMemory};
use std::alloc::Global;
use stream_guard::MinimumThroughputBodyOptions;

/// What was seen of an upload, and the look at it.
#[derive(Drop)]
pub struct Upload {
    /// What was seen.
    pub log: UploadThroughput,
    /// The look.
    pub check: UploadThroughputCheck,
}

impl Upload {
    /// Reads a request's body to its end. What is seen of that is kept from now on.
    pub fn new<X: Outside>(
        alloc: Global,
        options: MinimumThroughputBodyOptions,
        body: &Body,
        outside: &mut X,
    ) -> Result<Upload, OutOfMemory>
        ensures ok { IfOk result (λ made. ByCalls X.makes outside.old
            (Watches options (body_bytes body.now) made) outside.new) }
        ensures err { OnErr result ((calls : _) × Chained X.makes outside.old calls outside.new) }
    {
        let whole = WholeBody::of(body)?;
        let now = outside.now();
        let mut log = options.start_log(now);
        let mut reading = ThroughputReadingBody::new(whole);
        let _frame = reading.poll_frame(alloc, outside, &mut log)?;
        Ok(Upload {
            log,
            check: UploadThroughputCheck::new(options),
        })
    }

    /// Looks at the upload, where the connector has no response yet. It answers why it fails, where
    /// it does.
    pub fn look<X: Outside>(
        &mut self,
        alloc: Global,
        outside: &mut X,
    ) -> Result<Option<Fault>, OutOfMemory>
        ensures ok { IfOk result (λ fault. ByCalls X.makes outside.old
            (Looks (X.sleeps outside.old) self.old fault self.new) outside.new) }
        ensures err { OnErr result ((calls : _) × Chained X.makes outside.old calls outside.new) }
    {
        self.check.check(alloc, outside, &mut self.log)
    }
}
