//! Lists that are given room before something is put into them, so that nothing is lost where
//! there is no memory.
ghost use Rattle.std.specs.Prelude.{◌≡◌, ◌++◌, ◌+◌, ◌<◌, ◌≤◌, [], IfErr, IfOk, length};
ghost use Rattle.std.specs.Prelude.{option_to_list, vec_capacity, vec_len};

use smithy_types::{List, OutOfMemory};
use std::alloc::Global;

/// The items of a list, with room for one more. Where there is no memory, the list comes back.
pub(crate) fn room_for_one<T>(alloc: Global, list: List<T>) -> Result<Vec<T>, List<T>>
    ensures items { IfOk result (λ items. items.items ≡ list) }
    ensures room { IfOk result (λ items. vec_len items < vec_capacity items) }
    ensures handed_back { IfErr result (λ back. back ≡ list) }
{
    let mut items = list.into_vec(alloc);
    match items.reserve(1) {
        Ok(()) => Ok(items),
        Err(_) => Err(List::from_vec(items)),
    }
}

/// An empty vector with room for the items of a list and for so many more.
pub(crate) fn room_for<T>(alloc: Global, list: &List<T>, more: usize) -> Result<Vec<T>, OutOfMemory>
    ensures items { IfOk result (λ items. items.items ≡ []) }
    ensures len { IfOk result (λ items. vec_len items ≡ 0) }
    ensures room { IfOk result (λ items. length list.now + more ≤ vec_capacity items) }
{
    let Some(room) = list.len().checked_add(more) else {
        return Err(OutOfMemory);
    };
    Ok(Vec::with_capacity(alloc, room)?)
}

/// Puts the item behind the others, where there is one.
pub(crate) fn push_if<T>(items: &mut Vec<T>, item: Option<T>)
    requires { vec_len items.old < vec_capacity items.old }
    ensures items { items.new.items ≡ items.old.items ++ option_to_list item }
    ensures len { vec_len items.new ≤ vec_len items.old + 1 }
    ensures capacity { vec_capacity items.new ≡ vec_capacity items.old }
{
    if let Some(item) = item {
        items.push_reserved(item);
    }
}

/// These items, those of a list behind them, and last this one, where there is one. It takes no
/// memory.
pub(crate) fn joined<T>(alloc: Global, front: Vec<T>, list: List<T>, last: Option<T>) -> Vec<T>
    requires { vec_len front + length list + 1 ≤ vec_capacity front }
    ensures { result.items ≡ front.items ++ list ++ option_to_list last }
{
    let mut front = front;
    let mut rest = list.into_vec(alloc);
    match front.append(&mut rest) {
        Ok(()) => rest.destroy_empty(),
        Err(_) => unreachable!(),
    }
    push_if(&mut front, last);
    front
}
