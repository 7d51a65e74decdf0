//! When a stream counts as stalled.
ghost use Rattle.std.specs.Prelude.{◌≡◌, None, Some, unwrap_or};

use crate::window::CheckWindow;
use crate::{Throughput, ThroughputLogs};
use smithy_types::StalledStreamProtectionConfig;

/// How long a stream may stall where nothing else was said: 20 s, in ns.
pub const DEFAULT_GRACE_PERIOD: u64 = 20_000_000_000;

/// 500 ms, in ns.
const CHECK_INTERVAL: u64 = 500_000_000;

/// When a stream counts as stalled.
#[derive(Clone, Drop)]
pub struct MinimumThroughputBodyOptions {
    /// A stream that is slower stalls.
    minimum_throughput: Throughput,
    /// How long a stream may stall, in ns.
    grace_period: u64,
    /// The window over which the throughput is taken.
    check_window: CheckWindow,
}

impl MinimumThroughputBodyOptions {
    ghost use Rattle.std.specs.Prelude.{◌/◌, []};
    ghost use Rattle.stream_guard.specs.Logs.{Keeps, empty_log};
    ghost use Rattle.stream_guard.specs.Options.{unset};

    /// A builder with nothing set.
    pub fn builder() -> MinimumThroughputBodyOptionsBuilder
        ensures { result ≡ unset }
    {
        MinimumThroughputBodyOptionsBuilder::new()
    }

    /// A builder with these parts set, but for the window.
    pub fn to_builder(self) -> MinimumThroughputBodyOptionsBuilder
        ensures { result ≡ record unset {
          minimum_throughput = Some self.minimum_throughput;
          grace_period = Some
              self.grace_period;
        } }
    {
        MinimumThroughputBodyOptionsBuilder::new()
            .minimum_throughput(self.minimum_throughput)
            .grace_period(self.grace_period)
    }

    /// How long a stream may stall, in ns.
    pub fn grace_period(&self) -> u64
        ensures { result ≡ self.now.grace_period }
    {
        self.grace_period
    }

    /// The throughput below which a stream stalls.
    pub fn minimum_throughput(&self) -> Throughput
        ensures { result ≡ self.now.minimum_throughput }
    {
        self.minimum_throughput
    }

    /// A log that starts now and judges by the window of these options, which ten bins fit into.
    pub fn start_log(&self, now: u64) -> ThroughputLogs
        ensures log { result ≡ empty_log now (self.now.check_window / 10) }
        ensures kept { Keeps result [] }
    {
        self.check_window.start_log(now)
    }

    /// Not used any more: 500 ms, in ns.
    pub fn check_interval(&self) -> u64
        ensures { result ≡ 500000000 }
    {
        CHECK_INTERVAL
    }
}

impl Default for MinimumThroughputBodyOptions {
    ghost use Rattle.stream_guard.specs.Options.{default_options};

    ghost is_default = { λ options. options ≡ default_options };

    fn default() -> MinimumThroughputBodyOptions {
        MinimumThroughputBodyOptions {
            minimum_throughput: Throughput::new_bytes_per_second(1),
            grace_period: DEFAULT_GRACE_PERIOD,
            check_window: CheckWindow::one_second(),
        }
    }
}

impl From<StalledStreamProtectionConfig> for MinimumThroughputBodyOptions {
    ghost use Rattle.stream_guard.specs.Options.{default_options};

    ghost from_gives = { λ config options. options ≡
        record default_options { grace_period = config.grace_period } };

    fn from(config: StalledStreamProtectionConfig) -> MinimumThroughputBodyOptions {
        MinimumThroughputBodyOptions {
            minimum_throughput: Throughput::new_bytes_per_second(1),
            grace_period: config.grace_period,
            check_window: CheckWindow::one_second(),
        }
    }
}

/// Makes options. A part that isn't set has its default.
#[derive(Clone, Drop)]
pub struct MinimumThroughputBodyOptionsBuilder {
    minimum_throughput: Option<Throughput>,
    grace_period: Option<u64>,
}

impl Default for MinimumThroughputBodyOptionsBuilder {
    ghost use Rattle.stream_guard.specs.Options.{unset};

    ghost is_default = { λ builder. builder ≡ unset };

    fn default() -> MinimumThroughputBodyOptionsBuilder {
        MinimumThroughputBodyOptionsBuilder::new()
    }
}

impl MinimumThroughputBodyOptionsBuilder {
    ghost use Rattle.stream_guard.specs.Options.{unset, built};

    /// Nothing set.
    pub fn new() -> MinimumThroughputBodyOptionsBuilder
        ensures { result ≡ unset }
    {
        MinimumThroughputBodyOptionsBuilder {
            minimum_throughput: None,
            grace_period: None,
        }
    }

    /// Sets how long a stream may stall, in ns.
    pub fn grace_period(mut self, grace_period: u64) -> MinimumThroughputBodyOptionsBuilder
        ensures { result ≡ record self { grace_period = Some grace_period } }
    {
        self.grace_period = Some(grace_period);
        self
    }

    /// Sets or clears how long a stream may stall, in ns.
    pub fn set_grace_period(
        &mut self,
        grace_period: Option<u64>,
    ) -> &mut MinimumThroughputBodyOptionsBuilder
        ensures lent { result.ghost_name ≡ self.entry.ghost_name }
        ensures set { result.now ≡ record self.old { grace_period = grace_period } }
    {
        self.grace_period = grace_period;
        self
    }

    /// Sets the throughput below which a stream stalls.
    pub fn minimum_throughput(
        mut self,
        minimum_throughput: Throughput,
    ) -> MinimumThroughputBodyOptionsBuilder
        ensures { result ≡ record self { minimum_throughput = Some minimum_throughput } }
    {
        self.minimum_throughput = Some(minimum_throughput);
        self
    }

    /// Sets or clears the throughput below which a stream stalls.
    pub fn set_minimum_throughput(
        &mut self,
        minimum_throughput: Option<Throughput>,
    ) -> &mut MinimumThroughputBodyOptionsBuilder
        ensures lent { result.ghost_name ≡ self.entry.ghost_name }
        ensures set { result.now ≡ record self.old { minimum_throughput = minimum_throughput } }
    {
        self.minimum_throughput = minimum_throughput;
        self
    }

    /// Not used any more: changes nothing.
    pub fn check_interval(self, _check_interval: u64) -> MinimumThroughputBodyOptionsBuilder
        ensures { result ≡ self }
    {
        self
    }

    /// Not used any more: changes nothing.
    pub fn set_check_interval(
        &mut self,
        _check_interval: Option<u64>,
    ) -> &mut MinimumThroughputBodyOptionsBuilder
        ensures lent { result.ghost_name ≡ self.entry.ghost_name }
        ensures unchanged { result.now ≡ self.old }
    {
        self
    }

    /// The options, with the default of each part that isn't set.
    pub fn build(self) -> MinimumThroughputBodyOptions
        ensures { result ≡ built self }
    {
        MinimumThroughputBodyOptions {
            minimum_throughput: self
                .minimum_throughput
                .unwrap_or(Throughput::new_bytes_per_second(1)),
            grace_period: self.grace_period.unwrap_or(DEFAULT_GRACE_PERIOD),
            check_window: CheckWindow::one_second(),
        }
    }
}
