//! The classifiers of a client, in the order in which they are asked.
ghost use Rattle.std.specs.Prelude.{◌≡◌, IfErr, IfOk};
ghost use Rattle.client_builder.specs.Priority.{IsByPriority, rank};

use retry_policy::ClassifyRetry;
use smithy_types::List;
use std::alloc::Global;

/// The classifiers by their priority, the lowest first, and those of one priority in the order of
/// the list. Where there is no memory, the list comes back.
pub(crate) fn by_priority<C: ClassifyRetry>(alloc: Global, list: List<C>) -> Result<Vec<C>, List<C>>
    ensures sorted { IfOk result (λ items. IsByPriority C.ranked list items.items) }
    ensures handed_back { IfErr result (λ back. back ≡ list) }
{
    let mut items = list.into_vec(alloc);
    let sorted = items.sort_by_key(
        |classifier: &C| -> u16
            ensures { result ≡ rank (C.ranked classifier.now) }
        { rank(classifier.priority()) },
    );
    match sorted {
        Ok(()) => Ok(items),
        Err(_) => Err(List::from_vec(items)),
    }
}

// A priority's place among all, from 0 on.
fn rank(priority: i8) -> u16
    ensures { result ≡ rank priority }
{
    let size = priority.unsigned_abs() as u16;
    if priority < 0 {
        128u16.saturating_sub(size)
    } else {
        128 + size
    }
}
