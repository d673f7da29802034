//! What calls answer. The refusals of a relay keep their numbers.

/// It is done.
pub const OK: u8 = 0;

/// An allocation was refused.
pub const NO_MEMORY: u8 = 1;

/// The connection wasn't named as one that carries data.
pub const NOT_DATA: u8 = 6;

/// A lane is under way on the connection.
pub const UNDER_WAY: u8 = 7;

/// Data of the last opening wasn't read.
pub const UNREAD: u8 = 8;

/// The connection isn't open.
pub const NOT_OPEN: u8 = 9;

/// The connection carries lines.
pub const LINES: u8 = 10;

/// There is no relay.
pub const NO_RELAY: u8 = 16;

/// There is a relay already.
pub const HAS_RELAY: u8 = 17;

/// A connection is 0 to 61.
pub const BAD_DLCI: u8 = 18;

/// A lane begins at once, by a CONNECT line or by a prompt, 0 to 2, and lasts until its opening ends or the carrier is lost, 0 or 1.
pub const BAD_BEGIN: u8 = 19;
