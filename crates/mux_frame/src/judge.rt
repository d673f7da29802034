//! Judges candidates: what the octets after a flag can be (27.010, 5.2.1). The check octet covers address, control and
//! length, so their octets and those where the check octet and the closing flag should stand decide, whatever the
//! information is.
ghost use Rattle.std.specs.Prelude.{◌≡◌, ◌+◌, ◌/◌, ◌^◌, ◌<◌, ◌≤◌, Some, drop, length, slice_get};
ghost use Rattle.mux_frame.specs.Frames.{frame_of};
ghost use Rattle.mux_frame.specs.Judging.{Means, by_end, by_header, by_length, by_rest, fits, frame_at, kind_in, verdict_on};
ghost use Rattle.mux_frame.specs.Judged.{IsAtPlace, header_seen, verdict_seen};
ghost use Rattle.mux_frame.specs.Deframing.{next_in};

use crate::check::check_octet;
use crate::dlci::Dlci;
use crate::frame::{FrameView, Kind};
use crate::write::FLAG;

/// What the first octets of a frame say.
#[derive(Clone, Copy)]
pub(crate) struct Header {
    pub(crate) dlci: Dlci,
    pub(crate) kind: Kind,
    pub(crate) cr: bool,
    pub(crate) pf: bool,
    /// How many octets it has: address, control and length octets.
    pub(crate) size: u8,
    /// How many octets of information follow it.
    pub(crate) info_len: u16,
    /// The check octet that it calls for.
    pub(crate) check: u8,
}

/// What a candidate can still become, by the octets after its flag.
#[derive(Clone, Copy)]
pub(crate) enum Verdict {
    /// They can become a frame.
    Unfinished,
    /// Whatever comes, they begin no frame.
    Refused,
    /// As far as they were looked at they are a frame with this header.
    Fits(Header),
}

#[inline(always)]
/// The octet at a place, where it has come.
fn octet_at(octets: &[u8], place: usize) -> Option<u8>
    ensures { result ≡ slice_get octets.now place }
{
    octets.get(place).copied()
}

#[inline(always)]
/// The kind of a control octet, whatever its P/F bit (27.010, 5.2.1.3). `None` where it is of no kind.
pub fn kind_of(control: u8) -> Option<Kind>
    ensures { result ≡ kind_in control }
{
    // The most frequent ones, in one comparison.
    if control | 0x10 == 0xFF {
        return Some(Kind::Uih);
    }
    match control {
        0x2F | 0x3F => Some(Kind::Sabm),
        0x63 | 0x73 => Some(Kind::Ua),
        0x0F | 0x1F => Some(Kind::Dm),
        0x43 | 0x53 => Some(Kind::Disc),
        _ => None,
    }
}

#[inline(always)]
/// The verdict by the length octets, after a good address octet and a control octet of this kind.
fn by_length(
    most: u16,
    dlci: Dlci,
    kind: Kind,
    address: u8,
    control: u8,
    lengths: (Option<u8>, Option<u8>),
) -> Verdict
    requires { dlci.number ≡ address / 4 }
    ensures { verdict_seen result ≡ by_length most address control kind lengths.0 lengths.1 }
{
    let (Some(first), second) = lengths else {
        return Verdict::Unfinished;
    };
    let low = u16::from(first / 2);
    if low > most {
        return Verdict::Refused;
    }
    let short = Header {
        dlci,
        kind,
        cr: address / 2 % 2 == 1,
        pf: control / 16 % 2 == 1,
        size: 3,
        info_len: low,
        check: check_octet(&[address, control, first]),
    };
    if first % 2 == 1 {
        return Verdict::Fits(short);
    }
    let Some(second) = second else {
        return Verdict::Unfinished;
    };
    let info_len = low + 128 * u16::from(second);
    if info_len > most {
        return Verdict::Refused;
    }
    let check = check_octet(&[address, control, first, second]);
    Verdict::Fits(Header {
        size: 4,
        info_len,
        check,
        ..short
    })
}

impl Verdict {
    #[inline(always)]
    #[tactic(auto, unfolding(crate::specs::Judging::by_header))]
    /// The verdict by the first four octets after a flag, as far as they have come.
    pub(crate) fn by_header(
        n1: u16,
        address: Option<u8>,
        control: Option<u8>,
        lengths: (Option<u8>, Option<u8>),
    ) -> Verdict
        ensures { verdict_seen result ≡ by_header n1 address control lengths.0 lengths.1 }
    {
        let Some(address) = address else {
            return Verdict::Unfinished;
        };
        if address % 2 != 1 {
            return Verdict::Refused;
        }
        let Some(dlci) = Dlci::new(address / 4) else {
            return Verdict::Refused;
        };
        let Some(control) = control else {
            return Verdict::Unfinished;
        };
        let Some(kind) = kind_of(control) else {
            return Verdict::Refused;
        };
        by_length(kind.most_info(n1), dlci, kind, address, control, lengths)
    }
}

impl Verdict {
    #[inline(always)]
    #[tactic(auto, unfolding(crate::specs::Judging::verdict_on))]
    /// The verdict on the octets after a flag.
    pub(crate) fn on(n1: u16, text: &[u8]) -> Verdict
        ensures value { verdict_seen result ≡ verdict_on n1 text.now }
        ensures means { Means n1 text.now (verdict_seen result) }
    {
        let lengths = (octet_at(text, 2), octet_at(text, 3));
        match Verdict::by_header(n1, octet_at(text, 0), octet_at(text, 1), lengths) {
            Verdict::Fits(header) => header.by_rest(text),
            Verdict::Unfinished => Verdict::Unfinished,
            Verdict::Refused => Verdict::Refused,
        }
    }
}

impl Header {
    /// Where its check octet stands, counted from its address octet.
    pub(crate) fn check_place(self) -> usize
        ensures value { result ≡ self.size + self.info_len }
        ensures within { result < 2 ^ 17 }
    {
        usize::from(self.size) + usize::from(self.info_len)
    }

    #[inline(always)]
    #[tactic(auto, unfolding(crate::specs::Judging::by_end))]
    /// The verdict by the octets where the check octet and the closing flag should stand.
    pub(crate) fn by_end(self, check: Option<u8>, close: Option<u8>) -> Verdict
        ensures { verdict_seen result ≡ by_end (header_seen self) check close }
    {
        let Some(check) = check else {
            return Verdict::Unfinished;
        };
        if check != self.check {
            return Verdict::Refused;
        }
        match close {
            None => Verdict::Unfinished,
            Some(FLAG) => Verdict::Fits(self),
            Some(_) => Verdict::Refused,
        }
    }

    #[inline(always)]
    /// The verdict by these octets after a flag, which begin with the header's.
    fn by_rest(self, text: &[u8]) -> Verdict
        ensures { verdict_seen result ≡ by_rest text.now (fits (header_seen self)) }
    {
        let place = self.check_place();
        if place + 1 < text.len() {
            self.by_end(Some(text[place]), Some(text[place + 1]))
        } else {
            self.by_end(octet_at(text, place), None)
        }
    }

    /// The frame in the octets after a flag, lent.
    pub(crate) fn view(self, text: &[u8]) -> FrameView<'_>
        requires { self.size + self.info_len ≤ length text.now }
        ensures { frame_of result ≡ frame_at (header_seen self) text.now }
    {
        FrameView {
            dlci: self.dlci,
            kind: self.kind,
            cr: self.cr,
            pf: self.pf,
            info: &text[usize::from(self.size)..self.check_place()],
        }
    }

    /// The octets after a flag from the frame's closing flag on.
    pub(crate) fn later(self, text: &[u8]) -> &[u8]
        requires { self.size + self.info_len + 1 ≤ length text.now }
        ensures { result.now ≡ drop (self.size + self.info_len + 1) text.now }
    {
        let len = text.len();
        &text[self.check_place() + 1..len]
    }
}

#[inline(always)]
/// The frame that octets begin with behind so many, lent. It is known to be whole, and where its check octet
/// stands, so nothing is checked again.
pub(crate) fn front_frame(
    n1: u16,
    octets: &[u8],
    passed: usize,
    check_place: usize,
) -> FrameView<'_>
    requires passed { passed ≤ length octets.now }
    requires at_place { IsAtPlace n1 (drop passed octets.now) check_place }
    ensures { Some (frame_of result) ≡ next_in n1 (drop passed octets.now) }
{
    let (_, left) = octets.split_at(passed);
    let (address, control) = (left[1], left[2]);
    // Its low bit is set where no second length octet follows.
    let size = 4 - usize::from(left[3] % 2);
    FrameView {
        dlci: Dlci {
            number: address / 4,
        },
        kind: kind_of(control).unwrap_or(Kind::Uih),
        cr: address / 2 % 2 == 1,
        pf: control / 16 % 2 == 1,
        info: &left[1 + size..1 + check_place],
    }
}
