//! Octets copied to places of the caller's room.
ghost use Rattle.std.specs.Prelude.{◌≡◌, ◌≤◌, ◌+◌, ◌++◌, length, take, drop};

/// Copies octets to a place of the room, and says where they end. The condition is that they have room
/// there.
#[tactic(auto, using(crate::proofs::Rooms::put_at))]
pub(crate) fn put(octets: &[u8], room: &mut [u8], place: usize) -> usize
    requires { place + length octets.now ≤ length room.old }
    ensures place { result ≡ place + length octets.now }
    ensures room { room.new ≡ take place room.old ++ (octets.now ++ drop result room.old) }
{
    let (_, back) = room.split_at_mut(place);
    let (front, _) = back.split_at_mut(octets.len());
    front.copy_from_slice(octets);
    place + octets.len()
}
