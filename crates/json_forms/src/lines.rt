//! The lines of a text, each of which may be a JSON value.
ghost use Rattle.std.specs.Prelude.{◌≡◌, map, IfOk};
ghost use Rattle.std.specs.Str.Lines.{lines};

use smithy_types::OutOfMemory;
use std::alloc::Global;

/// The lines of the text, without their ends.
pub fn lines_of(alloc: Global, text: &str) -> Result<Vec<&str>, OutOfMemory>
    ensures { IfOk result (λ v. map (λ x. x.now) v.items ≡ lines text.now) }
{
    let found: Vec<&str> = text.lines().collect(alloc)?;
    Ok(found)
}
