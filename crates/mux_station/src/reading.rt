//! Reads control messages (27.010, 5.4.6).
ghost use Rattle.std.specs.Prelude.{◌≡◌, ◌≤◌, option_map, IfSome};
ghost use Rattle.mux_station.specs.Messages.{message_of, msc_dlci, msc_stops, is_good_msc};
ghost use Rattle.mux_station.specs.MessagesRead.{message_read};

use crate::message::Message;
use crate::written::{MSC, MSC_RESPONSE};

/// The connection that an MSC names (27.010, 5.4.6.3.7); 0 where the MSC has no value.
pub fn msc_dlci(value: &[u8]) -> u8
    ensures { result ≡ msc_dlci value.now }
{
    match value.first() {
        Some(octet) => octet / 4,
        None => 0,
    }
}

/// Whether the FC bit of an MSC says that no frames can be accepted (27.010, 5.4.6.3.7).
pub fn msc_stops(value: &[u8]) -> bool
    ensures { result ≡ msc_stops value.now }
{
    match value.get(1) {
        Some(signals) => signals / 2 % 2 == 1,
        None => false,
    }
}

fn is_good_msc(value: &[u8]) -> bool
    ensures { result ≡ is_good_msc value.now }
{
    let dlci = msc_dlci(value);
    value.len() >= 2 && dlci > 0 && dlci <= 61
}

impl<'a> Message<'a> {
    /// The message that the information of a UIH frame on 0 begins with. An MSC with fewer than two
    /// value octets, or for another connection than 1 to 61, is no message.
    pub fn read(info: &'a [u8]) -> Option<Message<'a>>
        ensures message { option_map message_read result ≡ message_of info.now }
        ensures msc { IfSome result (λ m. m.octet ≡ 0xe3 → msc_dlci m.value.now ≤ 61) }
    {
        let (&octet, rest) = info.split_first()?;
        let (&indicator, rest) = rest.split_first()?;
        if octet % 2 == 0 || indicator % 2 == 0 {
            return None;
        }
        let length = usize::from(indicator / 2);
        if length > rest.len() {
            return None;
        }
        let value = &rest[..length];
        let is_msc = octet == MSC || octet == MSC_RESPONSE;
        if is_msc && !is_good_msc(value) {
            return None;
        }
        Some(Message { octet, value })
    }
}
