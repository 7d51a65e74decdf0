//! What a program goes on with of the answers of setters and of `build`, where it lets go what
//! came back.
ghost use Rattle.std.specs.Prelude.{◌≡◌, IfOk, IsErr, Ok, OnErr};

use crate::BuildRefusal;
use smithy_types::OutOfMemory;

/// The builder B that a part P was added to. `OutOfMemory` where there was no memory for the part;
/// builder and part are let go then.
pub fn added<B: Drop, P: Drop>(addition: Result<B, (B, P, OutOfMemory)>) -> Result<B, OutOfMemory>
    ensures builder { IfOk result (λ builder. addition ≡ Ok builder) }
    ensures wanted { OnErr result (IsErr addition) }
{
    match addition {
        Ok(builder) => Ok(builder),
        Err(_) => Err(OutOfMemory),
    }
}

/// Why a builder B didn't build. Builder, outside X and quota Q are let go.
pub fn refusal_of<B: Drop, X: Drop, Q: Drop>(back: (B, X, Q, BuildRefusal)) -> BuildRefusal
    ensures { result ≡ back.3 }
{
    back.3
}
