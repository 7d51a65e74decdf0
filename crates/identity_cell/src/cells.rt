//! The cells of a cache, each asked by the id of its scheme.
ghost use Rattle.std.specs.Prelude.{◌≡◌, ◌⊎◌, false, min, sum_by, IfOk, OnOk, OnErr};
ghost use Rattle.std.specs.Map.{values_of};
ghost use Rattle.identity_cell.specs.Cell.{after_clear};
ghost use Rattle.identity_cell.specs.LazyCache.{LooksIn, StaysIn, looked_at, AnswersLook, loads_in};

use crate::{Begin, CellCore, Cleared, Clearing, Looked, SchemeId};
use indexmap::IndexMap;
use smithy_types::{Identity, OutOfMemory};
use std::alloc::Global;

/// A cell for each scheme, in the order in which they were made.
pub(crate) type Cells = IndexMap<SchemeId, CellCore<Identity>>;

/// Asks a cell at a moment for an identity that hasn't expired, and where it gives none, to begin a
/// load.
pub(crate) fn look_at(
    cell: &mut CellCore<Identity>,
    alloc: Global,
    now: u64,
) -> Result<Looked, OutOfMemory>
    ensures event { OnOk result (cell.new ≡ looked_at cell.old now) }
    ensures answer { IfOk result (AnswersLook cell.old now) }
    ensures err { OnErr result (
        (cell.new ≡ cell.old) ⊎ (cell.new ≡ after_clear cell.old now false)) }
{
    match cell.clear(alloc, now, &mut Clearing::new())? {
        Cleared::Value(identity) => Ok(Looked::Hit(identity)),
        Cleared::NotYet => Ok(Looked::NotYet),
        Cleared::None => match cell.begin(alloc)? {
            Begin::Load(ticket) => Ok(Looked::Load(ticket)),
            Begin::Value(identity) => Ok(Looked::Hit(identity)),
            Begin::NotYet => Ok(Looked::NotYet),
        },
    }
}

/// The same of the scheme's cell, where it has one.
pub(crate) fn look_in(
    cells: &mut Cells,
    alloc: Global,
    id: &SchemeId,
    now: u64,
) -> Result<Option<Looked>, OutOfMemory>
    ensures ok { IfOk result (λ looked.
        LooksIn cells.old.entries id.now now looked cells.new.entries) }
    ensures err { OnErr result (StaysIn cells.old.entries id.now now cells.new.entries) }
{
    match cells.get_mut(id) {
        Some(cell) => Ok(Some(look_at(cell, alloc, now)?)),
        None => Ok(None),
    }
}

/// How many loads were begun in these cells. It stops at `u64::MAX`.
pub(crate) fn loads(cells: &Cells) -> u64
    ensures { result ≡ min (sum_by loads_in (values_of cells.now.entries)) 18446744073709551615 }
{
    let mut total: u64 = 0;
    for cell in cells.values() {
        total = total.saturating_add(cell.loads());
    }
    total
}
