//! A gate before the calls of callers that run beside each other.

/// Is asked right before each call of a caller's outside, and may hold it.
pub trait Gate {
    ghost use Rattle.std.specs.Prelude.{ℕ};

    /// What is known where this gate let this call of this caller pass. A caller of `pass` knows no
    /// more of it than that.
    ghost passed: { Self → ℕ → ℕ → Type 0 };

    /// Lets the caller's call pass. Callers are numbered from 0, and so are the calls of each.
    fn pass(&self, caller: u32, call: u64)
        ensures { passed self.now caller call };
}

/// The gate that lets every call pass.
#[derive(Drop)]
pub struct OpenGate;

impl Gate for OpenGate {
    ghost passed = { λ _ _ _. Unit {0} };

    fn pass(&self, _caller: u32, _call: u64) {}
}
