//! Small parts of time, and what happened in them.
ghost use Rattle.std.specs.Prelude.{◌≡◌, ◌+◌, ◌-◌, ◌^◌, min};

/// The most telling thing that happened in a bin, the least telling first.
#[derive(Clone, Copy)]
pub enum BinLabel {
    /// Nothing: the stream wasn't polled.
    NoPolling,
    /// The stream was polled, and had nothing.
    Pending,
    /// Bytes were transferred, be it none.
    TransferredBytes,
}

impl BinLabel {
    ghost use Rattle.stream_guard.specs.Bin.{is_no_polling, is_pending, is_transferred, higher};

    /// Whether nothing happened.
    pub fn is_no_polling(self) -> bool
        ensures { result ≡ is_no_polling self }
    {
        match self {
            BinLabel::NoPolling => true,
            _ => false,
        }
    }

    /// Whether polling without bytes is all that happened.
    pub fn is_pending(self) -> bool
        ensures { result ≡ is_pending self }
    {
        match self {
            BinLabel::Pending => true,
            _ => false,
        }
    }

    /// Whether bytes were transferred.
    pub fn is_transferred(self) -> bool
        ensures { result ≡ is_transferred self }
    {
        match self {
            BinLabel::TransferredBytes => true,
            _ => false,
        }
    }

    /// The more telling of two.
    pub fn higher(self, other: BinLabel) -> BinLabel
        ensures { result ≡ higher self other }
    {
        match (self, other) {
            (BinLabel::TransferredBytes, _) => BinLabel::TransferredBytes,
            (_, BinLabel::TransferredBytes) => BinLabel::TransferredBytes,
            (BinLabel::Pending, _) => BinLabel::Pending,
            (BinLabel::NoPolling, label) => label,
        }
    }
}

/// What happened in a small part of the window of time.
#[derive(Clone, Copy)]
pub struct Bin {
    /// What it counts as.
    pub label: BinLabel,
    /// The bytes that were transferred, at most `u64::MAX`.
    pub bytes: u64,
}

impl Bin {
    ghost use Rattle.stream_guard.specs.Bin.{no_polling, merged};

    /// A bin in which nothing happened.
    pub const NO_POLLING: Bin = Bin {
        label: BinLabel::NoPolling,
        bytes: 0,
    };

    /// A bin in which the stream was polled, and had nothing.
    pub const PENDING: Bin = Bin {
        label: BinLabel::Pending,
        bytes: 0,
    };

    /// A bin in which so many bytes were transferred.
    pub const fn transferred(bytes: u64) -> Bin
        ensures { result ≡ record { label = BinLabel.TransferredBytes; bytes = bytes } }
    {
        Bin {
            label: BinLabel::TransferredBytes,
            bytes,
        }
    }

    /// Both bins in one.
    pub fn merged(self, other: Bin) -> Bin
        ensures { result ≡ merged self other }
    {
        Bin {
            label: self.label.higher(other.label),
            bytes: self.bytes.saturating_add(other.bytes),
        }
    }
}
