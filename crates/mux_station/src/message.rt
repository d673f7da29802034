//! A control message (27.010, 5.4.6.1).
ghost use Rattle.std.specs.Prelude.{◌≤◌, length};

/// A message as read: its type octet, of a command or a response, and its value, of at most 127 octets.
#[derive(Clone, Copy)]
pub struct Message<'a> {
    pub octet: u8,
    pub value: &'a [u8],
    pub ghost short: { length value.now ≤ 127 },
}
