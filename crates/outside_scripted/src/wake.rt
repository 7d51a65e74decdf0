//! Where the clock goes when something is waited for.
ghost use Rattle.std.specs.Prelude.{◌≡◌, ℕ, [], ◌∷◌, ◌++◌, List, option_to_list};
ghost use Rattle.outside_scripted.specs.Wake.{IsNext, Wakes};

/// One second, in nanoseconds.
pub const SECOND: u64 = 1_000_000_000;

/// The least moment above this one at which one of these things is due.
pub fn earliest(dues: &[u64], moment: u64) -> Option<u64>
    ensures { IsNext moment dues.now result }
{
    let mut next = None;
    for due in dues {
        next = sooner(next, *due, moment);
    }
    next
}

/// The least moment with one thing more, which is due then.
pub fn sooner(next: Option<u64>, due: u64, moment: u64) -> Option<u64>
    ensures { (dues : List ℕ) → IsNext moment dues next → IsNext moment (dues ++ due ∷ []) result }
{
    if due <= moment {
        return next;
    }
    match next {
        Some(next) => Some(next.min(due)),
        None => Some(due),
    }
}

/// The least moment with one thing more, if it is there.
pub fn sooner_of(next: Option<u64>, due: Option<u64>, moment: u64) -> Option<u64>
    ensures { (dues : List ℕ) → IsNext moment dues next →
        IsNext moment (dues ++ option_to_list due) result }
{
    match due {
        Some(due) => sooner(next, due, moment),
        None => next,
    }
}

/// The moment after a park: the next one at which something is due, else a second later.
pub fn woken(next: Option<u64>, moment: u64) -> u64
    ensures { (dues : List ℕ) → IsNext moment dues next → Wakes moment dues result }
{
    next.unwrap_or(moment.saturating_add(SECOND))
}
