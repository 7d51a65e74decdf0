//! A gate that lets two callers get on beside each other alone.

use cli_fleet::Gate;
use std::sync::atomic::{AtomicBool, Ordering};

/// How many reads a call is held at most.
const TURNS: u32 = 200_000_000;

/// Holds the first call of caller 0 until caller 1 comes to its second one, and that one until
/// caller 0 comes to its own second. A caller comes to its second call only behind an answer of its
/// first, so neither can end before the other has begun. Calls are counted on from run to run.
#[derive(Drop)]
pub struct HoldingGate {
    has_first_come: AtomicBool,
    has_second_come: AtomicBool,
    is_given_up: AtomicBool,
}

impl HoldingGate {
    /// A gate to which nobody has come.
    pub fn new() -> HoldingGate {
        HoldingGate {
            has_first_come: AtomicBool::new(false),
            has_second_come: AtomicBool::new(false),
            is_given_up: AtomicBool::new(false),
        }
    }

    /// Whether a held call went on though the other caller hadn't come.
    pub fn was_given_up(&self) -> bool {
        self.is_given_up.load(Ordering::SeqCst)
    }

    // Waits until the other caller has come, and gives up in the end.
    fn hold(&self, has_come: &AtomicBool) {
        for _ in 0..TURNS {
            if has_come.load(Ordering::SeqCst) {
                return;
            }
        }
        self.is_given_up.store(true, Ordering::SeqCst);
    }
}

impl Gate for HoldingGate {
    ghost passed = { λ _ _ _. Unit {0} };

    fn pass(&self, caller: u32, call: u64) {
        match (caller, call) {
            (0, 0) => self.hold(&self.has_second_come),
            (0, 1) => self.has_first_come.store(true, Ordering::SeqCst),
            (1, 1) => {
                self.has_second_come.store(true, Ordering::SeqCst);
                self.hold(&self.has_first_come);
            }
            _ => {}
        }
    }
}
