//! Octets copied to the front of the caller's room.
ghost use Rattle.std.specs.Prelude.{◌≡◌, ◌≤◌, length, take, drop, min};

/// Copies the first octets to the front of the room, as many as fit, and says how many.
pub(crate) fn put_first(octets: &[u8], room: &mut [u8]) -> usize
    ensures count { result ≡ min (length octets.now) (length room.old) }
    ensures few { result ≤ length octets.now }
    ensures fits { result ≤ length room.old }
    ensures put { take result room.new ≡ take result octets.now }
    ensures behind { drop result room.new ≡ drop result room.old }
{
    let count = octets.len().min(room.len());
    let (front, _) = room.split_at_mut(count);
    front.copy_from_slice(&octets[..count]);
    count
}
