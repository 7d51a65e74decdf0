//! What is left of a limit.
ghost use Rattle.std.specs.Prelude.{◌≡◌, ◌+◌, ◌<◌, None, IfSome};

/// What a part leaves of the room; none where it is more than that.
pub fn left_of(room: u64, part: u64) -> Option<u64>
    ensures some { IfSome result (λ left. left + part ≡ room) }
    ensures none { result ≡ None → room < part }
{
    room.checked_sub(part)
}
