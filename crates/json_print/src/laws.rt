//! What holds of every print of a run. Each law is the contract of a function without a body.
ghost use Rattle.json_print.specs.Laws.{StoppedWithRequest, TransmitsShowRequests};

/// A run that ends at its stop point leaves a request, so the last line of its print has one.
pub fn stopped_runs_have_their_request()
    ensures { StoppedWithRequest }
{}

/// In a list that begins a run each Transmit that isn't pending was handed a request: its line has
/// four parts, and the request is the last.
pub fn transmits_show_their_request()
    ensures { TransmitsShowRequests }
{}
