//! Keeps the octets of a ring from wrapping round the end of its block.
ghost use Rattle.std.specs.Prelude.{◌≡◌, ◌+◌, ◌-◌, ◌<◌, ◌≤◌, ◌++◌, drop, length, take};
ghost use Rattle.circular_buffer.specs.Buffer.{buffer};
ghost use Rattle.mux_frame.specs.Places.{turned};

use circular_buffer::HeapCircularBuffer;

/// How many octets are put aside at once.
const PIECE: usize = 256;

/// How many octets that are done with are worth writing over.
const MANY: usize = 256;

#[inline(always)]
/// Puts octets behind the others. A single one, as from a line that is read octet by octet, is put there at once.
fn put_behind(octets: &mut HeapCircularBuffer<u8>, more: &[u8])
    requires { length octets.old.items + length more.now ≤ octets.old.capacity }
    ensures { octets.new ≡ buffer (octets.old.items ++ more.now) octets.old.capacity }
{
    match more {
        [octet] => {
            let _ = octets.try_push_back(*octet);
        }
        _ => {
            octets.fill_from_slice(more);
        }
    }
}

/// Writes over so many octets in front that are done with: first those behind them, then these.
fn overwrite(octets: &mut [u8], passed: usize, more: &[u8])
    requires passed { length octets.old ≤ passed + passed }
    requires within { passed ≤ length octets.old }
    requires room { length more.now ≤ passed }
    ensures len { length octets.new ≡ length octets.old }
    ensures front { take (length octets.old - passed + length more.now) octets.new ≡ drop passed octets.old ++ more.now }
{
    let kept = octets.len() - passed;
    let (front, back) = octets.split_at_mut(passed);
    front[..kept].copy_from_slice(back);
    octets[kept..kept + more.len()].copy_from_slice(more);
}

#[inline(never)]
/// Drops so many octets that are done with, and appends others. Those that stay are moved to the front, so they are no more than
/// those that go, and the others are written behind them.
fn write_over(octets: &mut HeapCircularBuffer<u8>, passed: usize, more: &[u8])
    requires passed { length octets.old.items ≤ passed + passed }
    requires within { passed ≤ length octets.old.items }
    requires room { length octets.old.items - passed + length more.now ≤ octets.old.capacity }
    ensures { octets.new ≡ buffer (drop passed octets.old.items ++ more.now) octets.old.capacity }
{
    let kept = octets.len() - passed;
    let (over, behind) = more.split_at(more.len().min(passed));
    straighten(octets);
    overwrite(octets.make_contiguous(), passed, over);
    octets.truncate_back(kept + over.len());
    octets.fill_from_slice(behind);
}

#[inline(always)]
/// Drops so many octets that are done with, and appends others, which there is room for then. Where many are done with, and no
/// fewer than stay, they are written over, so that octets seldom wrap.
pub(crate) fn append(octets: &mut HeapCircularBuffer<u8>, passed: usize, more: &[u8])
    requires within { passed ≤ length octets.old.items }
    requires room { length octets.old.items - passed + length more.now ≤ octets.old.capacity }
    ensures { octets.new ≡ buffer (drop passed octets.old.items ++ more.now) octets.old.capacity }
{
    let kept = octets.len() - passed;
    if passed >= MANY && kept <= passed {
        write_over(octets, passed, more);
    } else {
        octets.truncate_front(kept);
        put_behind(octets, more);
    }
}

/// Moves as many octets from the front to the back as the piece is long, in their order.
fn turn_piece(octets: &mut HeapCircularBuffer<u8>, piece: &mut [u8])
    requires within { length piece.old ≤ length octets.old.items }
    requires room { length octets.old.items ≤ octets.old.capacity }
    ensures { octets.new ≡ turned (length piece.old) octets.old }
{
    octets.read_into(piece);
    octets.fill_from_slice(piece);
}

/// Moves so many octets from the front to the back, in their order, by a piece of memory that isn't empty.
fn turn(octets: &mut HeapCircularBuffer<u8>, count: usize, piece: &mut [u8])
    requires within { count ≤ length octets.old.items }
    requires room { length octets.old.items ≤ octets.old.capacity }
    requires some { 0 < length piece.old }
    ensures { octets.new ≡ turned count octets.old }
{
    let mut moved = 0;
    while moved < count {
        let some = (count - moved).min(piece.len());
        turn_piece(octets, &mut piece[..some]);
        moved += some;
    }
}

/// Moves all octets to the block's beginning, where so many of them lie up to its end and the others wrap.
fn move_round(octets: &mut HeapCircularBuffer<u8>, count: usize, piece: &mut [u8])
    requires within { count ≤ length octets.old.items }
    requires room { length octets.old.items ≤ octets.old.capacity }
    requires some { 0 < length piece.old }
    ensures { octets.new ≡ octets.old }
{
    turn(octets, count, piece);
    octets.make_contiguous().rotate_right(count);
}

#[inline(never)]
/// Moves octets that wrap to where they don't, where so many of them lie up to the block's end. Few are put aside and written anew
/// behind their old place.
fn move_wrapped(octets: &mut HeapCircularBuffer<u8>, count: usize)
    requires within { count ≤ length octets.old.items }
    requires room { length octets.old.items ≤ octets.old.capacity }
    ensures { octets.new ≡ octets.old }
{
    let len = octets.len();
    let mut piece = [0; PIECE];
    if len <= PIECE {
        turn_piece(octets, &mut piece[..len]);
    } else {
        move_round(octets, count, &mut piece);
    }
}

#[inline(always)]
/// Where octets wrap, moves them, most often to the block's beginning. So what is taken next doesn't wrap at once again, as it
/// would behind `make_contiguous` alone.
pub(crate) fn straighten(octets: &mut HeapCircularBuffer<u8>)
    ensures { octets.new ≡ octets.old }
{
    let (_, back) = octets.as_slices();
    if !back.is_empty() {
        let count = octets.len() - back.len();
        move_wrapped(octets, count);
    }
}
