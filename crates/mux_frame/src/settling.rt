//! Takes octets into a deframer, and drops what begins no frame.
ghost use Rattle.std.specs.Prelude.{◌≡◌, ◌≢◌, ◌+◌, ◌-◌, ◌^◌, ◌<◌, ◌≤◌, ◌++◌, ◌==◌, ℕ, [], ◌∷◌, true, not, drop, length, position, slice_get, IfSome};
ghost use Rattle.mux_frame.specs.Deframing.{decision_on, SameReading};
ghost use Rattle.mux_frame.specs.Judged.{IsCandidate, IsPassed, IsSearched, IsSought, Settles, SettlesFrom, StandsAt, StandsSo, len_to_check, verdict_seen};
ghost use Rattle.mux_frame.specs.Judging.{refused};
ghost use Rattle.mux_frame.specs.Laws.{AreOctets};
ghost use Rattle.mux_frame.specs.Places.{flags_at_front, from_flag};
ghost use Rattle.mux_frame.specs.Spelling.{flag};

use crate::judge::Verdict;
use crate::straight::{append, straighten};
use crate::write::FLAG;
use circular_buffer::HeapCircularBuffer;
use memchr::memchr;

/// Two flags, address, control and two length octets.
const LONGEST_HEAD: usize = 6;

#[inline(always)]
/// The place of the first flag in one slice, or the slice's length where there is none. Most often
/// it stands at the front.
fn flag_in(octets: &[u8]) -> usize
    ensures within { result ≤ length octets.now }
    ensures rest { drop result octets.now ≡ from_flag octets.now }
{
    if octets.first() == Some(&FLAG) {
        return 0;
    }
    memchr(FLAG, octets).unwrap_or(octets.len())
}

#[inline(always)]
/// The place of the first octet that isn't a flag.
fn first_other(octets: &[u8]) -> Option<usize>
    ensures { result ≡ position (λ x. not (x == flag)) octets.now }
{
    octets.iter().position(|octet| *octet != FLAG)
}

#[inline(always)]
/// How many flags stand at the front.
fn flags_in(octets: &[u8]) -> usize
    ensures value { result ≡ flags_at_front octets.now }
    ensures within { result ≤ length octets.now }
{
    first_other(octets).unwrap_or(octets.len())
}

#[inline(always)]
/// How many of the flags at the front stand before another one. No frame begins with these.
fn flags_passed(octets: &[u8]) -> usize
    ensures within { result ≤ length octets.now }
    ensures reads { AreOctets octets.now → (n1 : ℕ) → SameReading n1 octets.now (drop result octets.now) }
{
    flags_in(octets).saturating_sub(1)
}

#[inline(always)]
/// The place of the first flag in one slice behind which no other stands, or the slice's length where there is none. No frame
/// begins before it.
fn begin_in(octets: &[u8]) -> usize
    ensures within { result ≤ length octets.now }
    ensures reads { AreOctets octets.now → (n1 : ℕ) → SameReading n1 octets.now (drop result octets.now) }
{
    let place = flag_in(octets);
    let (_, left) = octets.split_at(place);
    place + flags_passed(left)
}

#[inline(always)]
/// The verdict on octets in one slice. No octets are undecided; octets that don't begin with a flag
/// begin no frame.
fn slice_verdict(octets: &[u8], n1: u16) -> Verdict
    ensures { verdict_seen result ≡ decision_on n1 octets.now }
{
    match octets.split_first() {
        Some((&FLAG, text)) => match text.first() {
            Some(&FLAG) => Verdict::Refused,
            _ => Verdict::on(n1, text),
        },
        Some(_) => Verdict::Refused,
        None => Verdict::Unfinished,
    }
}

/// The octet at a place in the two slices of a ring, where it has come.
fn octet_in(front: &[u8], back: &[u8], place: usize) -> Option<u8>
    ensures { result ≡ slice_get (front.now ++ back.now) place }
{
    if place < front.len() {
        return Some(front[place]);
    }
    back.get(place - front.len()).copied()
}

#[inline(never)]
/// The same verdict on the two slices of a ring, looked up octet by octet.
fn wrapped_verdict(front: &[u8], back: &[u8], n1: u16) -> Verdict
    ensures { verdict_seen result ≡ decision_on n1 (front.now ++ back.now) }
{
    let Some(first) = octet_in(front, back, 0) else {
        return Verdict::Unfinished;
    };
    if first != FLAG {
        return Verdict::Refused;
    }
    let (address, control) = (octet_in(front, back, 1), octet_in(front, back, 2));
    let lengths = (octet_in(front, back, 3), octet_in(front, back, 4));
    match Verdict::by_header(n1, address, control, lengths) {
        Verdict::Fits(header) => {
            let place = header.check_place();
            let check = octet_in(front, back, place + 1);
            header.by_end(check, octet_in(front, back, place + 2))
        }
        Verdict::Unfinished => Verdict::Unfinished,
        Verdict::Refused => Verdict::Refused,
    }
}

/// The same verdict on the two slices of a ring, of which there may be one alone.
fn decided(front: &[u8], back: &[u8], n1: u16) -> Verdict
    ensures { verdict_seen result ≡ decision_on n1 (front.now ++ back.now) }
{
    if back.is_empty() {
        return slice_verdict(front, n1);
    }
    wrapped_verdict(front, back, n1)
}

#[inline(always)]
/// The two slices of a ring from a place on.
pub(crate) fn slices_from<'a>(front: &'a [u8], back: &'a [u8], place: usize) -> (&'a [u8], &'a [u8])
    requires { place ≤ length (front.now ++ back.now) }
    ensures { result.0.now ++ result.1.now ≡ drop place (front.now ++ back.now) }
{
    if place < front.len() {
        let (_, left) = front.split_at(place);
        return (left, back);
    }
    let (_, left) = back.split_at(place - front.len());
    (left, &[])
}

#[inline(always)]
/// The place of the first flag in the two slices of a ring, or their length where there is none.
fn flag_in_both(front: &[u8], back: &[u8]) -> usize
    ensures within { result ≤ length (front.now ++ back.now) }
    ensures rest { drop result (front.now ++ back.now) ≡ from_flag (front.now ++ back.now) }
{
    let place = flag_in(front);
    if place < front.len() {
        return place;
    }
    place + flag_in(back)
}

/// How many octets at the front begin no frame: of a candidate that fails only its flag, and then
/// what stands before the next flag. If a whole frame follows them, it also gives the place of that
/// frame's check octet, counted from its address octet.
fn searched(octets: &[u8], n1: u16) -> (usize, Option<usize>)
    requires { AreOctets octets.now }
    ensures { IsSearched n1 octets.now result.0 result.1 }
{
    let mut start = 0;
    loop {
        let (_, left) = octets.split_at(start);
        match slice_verdict(left, n1) {
            Verdict::Fits(header) => return (start, Some(header.check_place())),
            Verdict::Unfinished => return (start, None),
            Verdict::Refused => {
                let (_, text) = octets.split_at(start + 1);
                start += 1 + begin_in(text);
            }
        }
    }
}

#[inline(never)]
/// The same in the two slices of a ring, where so many octets are known to begin no frame.
fn searched_on(front: &[u8], back: &[u8], passed: usize, n1: u16) -> (usize, Option<usize>)
    requires octets { AreOctets (front.now ++ back.now) }
    requires passed { IsPassed n1 (front.now ++ back.now) passed }
    ensures { IsSearched n1 (front.now ++ back.now) result.0 result.1 }
{
    let mut start = passed;
    loop {
        let (left, more) = slices_from(front, back, start);
        match decided(left, more, n1) {
            Verdict::Fits(header) => return (start, Some(header.check_place())),
            Verdict::Unfinished => return (start, None),
            Verdict::Refused => {
                let (text, more) = slices_from(front, back, start + 1);
                start += 1 + flag_in_both(text, more);
            }
        }
    }
}

/// The same in the two slices of a ring: in the first one, and where that has no whole frame, in both.
fn searched_both(front: &[u8], back: &[u8], n1: u16) -> (usize, Option<usize>)
    requires { AreOctets (front.now ++ back.now) }
    ensures { IsSearched n1 (front.now ++ back.now) result.0 result.1 }
{
    let (start, check_place) = searched(front, n1);
    if check_place.is_some() {
        return (start, check_place);
    }
    searched_on(front, back, start, n1)
}

/// What a candidate is.
enum Standing {
    /// A frame whose check octet stands at this place, counted from its address octet.
    Whole(usize),
    /// It can become a frame.
    Unfinished,
    /// It begins no frame.
    Refused,
}

#[inline(always)]
/// What the candidate of these octets after a flag is.
fn judged(n1: u16, text: &[u8]) -> Standing
    ensures { StandsSo n1 text.now result }
{
    match Verdict::on(n1, text) {
        Verdict::Fits(header) => Standing::Whole(header.check_place()),
        Verdict::Unfinished => Standing::Unfinished,
        Verdict::Refused => Standing::Refused,
    }
}

#[inline(always)]
/// Where the flag of the candidate at a place stands, and what the candidate is; nothing where no header may be whole. Its flag
/// is the second one of two: the first most often closes another frame.
fn standing_at(octets: &[u8], place: usize, n1: u16) -> Option<(usize, Standing)>
    requires { place ≤ length octets.now }
    ensures { IfSome result (λ s. StandsAt n1 octets.now place s.0 s.1) }
{
    let (_, left) = octets.split_at(place);
    if left.len() < LONGEST_HEAD {
        return None;
    }
    match left.split_first() {
        Some((&FLAG, text)) => match text.split_first() {
            Some((&FLAG, text)) => Some((place + 1, judged(n1, text))),
            _ => Some((place, judged(n1, text))),
        },
        _ => None,
    }
}

#[inline(always)]
/// How many octets at the front of one slice begin no frame, as far as its candidates tell. If a whole frame follows them, it
/// also gives the place of that frame's check octet, counted from its address octet.
fn sought(octets: &[u8], n1: u16) -> (usize, Option<usize>)
    requires { AreOctets octets.now }
    ensures { IsSought n1 octets.now result.0 result.1 }
{
    let mut start = 0;
    loop {
        let Some((begin, standing)) = standing_at(octets, start, n1) else {
            return (start, None);
        };
        match standing {
            Standing::Whole(place) => return (begin, Some(place)),
            Standing::Unfinished => return (begin, None),
            Standing::Refused => {
                let (_, text) = octets.split_at(begin + 1);
                start = begin + (1 + begin_in(text));
            }
        }
    }
}

#[inline(always)]
/// From a place on, passes over octets that begin no frame. If a whole frame stands there then, it gives the place of that
/// frame's check octet, counted from its address octet.
pub(crate) fn settle(octets: &[u8], from: usize, passed: &mut usize, n1: u16) -> Option<usize>
    requires octets { AreOctets octets.now }
    requires from { from ≤ length octets.now }
    ensures { SettlesFrom n1 octets.now from passed.new result }
{
    let Some((begin, standing)) = standing_at(octets, from, n1) else {
        return settle_few(octets, from, passed, n1);
    };
    *passed = begin;
    match standing {
        Standing::Whole(place) => Some(place),
        Standing::Unfinished => None,
        Standing::Refused => settle_behind(octets, begin, passed, n1),
    }
}

#[inline(always)]
/// Whether a flag stands there and nothing behind it.
fn is_last_flag(octets: &[u8], place: usize) -> bool
    requires { place ≤ length octets.now }
    ensures { result ≡ true → drop place octets.now ≡ flag ∷ [] }
{
    let (_, left) = octets.split_at(place);
    matches!(left, [FLAG])
}

/// The same, where no header is whole. Most often the flag that closed the last frame is all that is left.
fn settle_few(octets: &[u8], from: usize, passed: &mut usize, n1: u16) -> Option<usize>
    requires octets { AreOctets octets.now }
    requires from { from ≤ length octets.now }
    ensures { SettlesFrom n1 octets.now from passed.new result }
{
    if is_last_flag(octets, from) {
        *passed = from;
        return None;
    }
    settle_searching(octets, from, passed, n1)
}

#[inline(never)]
/// The same, where the candidate of the flag there has failed: what stands before the next flag is passed over too.
fn settle_behind(octets: &[u8], failed: usize, passed: &mut usize, n1: u16) -> Option<usize>
    requires octets { AreOctets octets.now }
    requires failed { refused ≡ decision_on n1 (drop failed octets.now) }
    ensures { SettlesFrom n1 octets.now failed passed.new result }
{
    let (_, text) = octets.split_at(failed + 1);
    let begin = failed + 1 + flag_in(text);
    let (_, left) = octets.split_at(begin);
    match sought(left, n1) {
        (start, Some(check_place)) => {
            *passed = begin + start;
            Some(check_place)
        }
        (start, None) => settle_searching(octets, begin + start, passed, n1),
    }
}

#[inline(never)]
/// The same, whatever stands there.
fn settle_searching(octets: &[u8], from: usize, passed: &mut usize, n1: u16) -> Option<usize>
    requires octets { AreOctets octets.now }
    requires from { from ≤ length octets.now }
    ensures { SettlesFrom n1 octets.now from passed.new result }
{
    let (_, left) = octets.split_at(from);
    let (count, check_place) = searched(left, n1);
    *passed = from + count;
    check_place
}

#[inline(always)]
/// How many octets the candidate at a place has before its check octet, by its length octets; none where these haven't come.
fn len_to_check(octets: &HeapCircularBuffer<u8>, place: usize) -> usize
    requires { place < 2 ^ 63 }
    ensures { result ≡ len_to_check (drop place octets.now.items) }
{
    let Some(second) = octets.get(place + 4) else {
        return 0;
    };
    let Some(first) = octets.get(place + 3) else {
        return 0;
    };
    let low = usize::from(*first / 2);
    if *first % 2 == 1 {
        4 + low
    } else {
        5 + low + 128 * usize::from(*second)
    }
}

#[inline(never)]
/// Takes octets in where all others are done with, and settles. What begins no frame isn't taken in.
fn take_first(
    octets: &mut HeapCircularBuffer<u8>,
    passed: &mut usize,
    more: &[u8],
    n1: u16,
) -> Option<usize>
    requires passed { length octets.old.items ≡ passed.old }
    requires octets { AreOctets octets.old.items }
    requires more { AreOctets more.now }
    requires room { length more.now ≤ octets.old.capacity }
    ensures octets { AreOctets octets.new.items }
    ensures capacity { octets.new.capacity ≡ octets.old.capacity }
    ensures within { passed.new ≤ length octets.new.items }
    ensures settles { Settles n1 more.now (drop passed.new octets.new.items) result }
{
    let (start, check_place) = searched(more, n1);
    let (_, left) = more.split_at(start);
    if left.is_empty() {
        return check_place;
    }
    append(octets, *passed, left);
    *passed = 0;
    check_place
}

/// Settles all octets. Where a whole frame stands then, they don't wrap, so that it can be lent.
fn settle_all(octets: &mut HeapCircularBuffer<u8>, passed: &mut usize, n1: u16) -> Option<usize>
    requires { AreOctets octets.old.items }
    ensures octets { octets.new ≡ octets.old }
    ensures settles { SettlesFrom n1 octets.old.items 0 passed.new result }
{
    let (front, back) = octets.as_slices();
    if back.is_empty() {
        return settle(front, 0, passed, n1);
    }
    let (start, check_place) = searched_both(front, back, n1);
    *passed = start;
    if check_place.is_some() {
        straighten(octets);
    }
    check_place
}

/// Appends octets to those that aren't done with, and settles. While the check octet of the candidate hasn't come, nothing is looked
/// at. The condition is that the octets there don't begin with what begins no frame.
pub(crate) fn take_in(
    octets: &mut HeapCircularBuffer<u8>,
    passed: &mut usize,
    more: &[u8],
    n1: u16,
) -> Option<usize>
    requires within { passed.old ≤ length octets.old.items }
    requires octets { AreOctets octets.old.items }
    requires more { AreOctets more.now }
    requires room { length octets.old.items - passed.old + length more.now ≤ octets.old.capacity }
    requires decided { decision_on n1 (drop passed.old octets.old.items) ≢ refused }
    ensures octets { AreOctets octets.new.items }
    ensures capacity { octets.new.capacity ≡ octets.old.capacity }
    ensures within { passed.new ≤ length octets.new.items }
    ensures settles { Settles n1 (drop passed.old octets.old.items ++ more.now) (drop passed.new octets.new.items) result }
{
    if octets.len() == *passed {
        return take_first(octets, passed, more, n1);
    }
    let least = len_to_check(octets, *passed);
    append(octets, *passed, more);
    *passed = 0;
    if octets.len() <= least {
        return None;
    }
    settle_all(octets, passed, n1)
}
