//! What calls answer. The refusals of an endpoint keep their numbers. A text's refusal is 32 and its number, a dialect's 48 and
//! its number.

/// It is done.
pub const OK: u8 = 0;

/// An allocation was refused.
pub const NO_MEMORY: u8 = 1;

/// N1 isn't 31 to 32767.
pub const BAD_N1: u8 = 2;

/// Too many requests.
pub const FULL: u8 = 2;

/// The line was lost before.
pub const LINE_LOST: u8 = 3;

/// There is no driver.
pub const NO_DRIVER: u8 = 16;

/// There is a driver already.
pub const HAS_DRIVER: u8 = 17;

/// A connection isn't 0 to 61.
pub const BAD_DLCI: u8 = 18;

/// A probe has more than 16 octets.
pub const LONG_PROBE: u8 = 19;

/// There is no such kind of unsolicited lines.
pub const BAD_KINDS: u8 = 20;

/// What came calls for octets that have no room behind those that wait for the line.
pub const OUTPUT_FIRST: u8 = 21;

/// The text is longer than the room.
pub const NO_ROOM: u8 = 22;

/// Nothing waits.
pub const NOTHING: u8 = 23;

/// There is a dialect already.
pub const HAS_DIALECT: u8 = 24;

/// There is no dialect.
pub const NO_DIALECT: u8 = 25;

/// There is no such form of a rule.
pub const BAD_FORM: u8 = 26;

/// The modem is in the multiplexer.
pub const ENTERED: u8 = 27;

/// The modem answered by another final code than OK.
pub const TURNED_DOWN: u8 = 28;

/// The modem didn't answer.
pub const SILENT: u8 = 29;

/// There is an entry already.
pub const HAS_ENTRY: u8 = 30;

/// There is no entry.
pub const NO_ENTRY: u8 = 31;

/// A text's refusal is this and its number.
pub const TEXT: u8 = 32;

/// A dialect's refusal is this and its number.
pub const DIALECT: u8 = 48;
