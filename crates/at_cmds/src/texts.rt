//! Texts that commands and replies have.
use at_text::Text;

/// A PIN. One that may be written has 4 to 8 decimal digits (27.007, 8.3).
pub type Pin = Text;

/// The name of an access point. One that may be written has 1 to 63 letters, digits, `.` and `-` (27.007, 10.1.1).
pub type Apn = Text;

/// An operator's number. One that may be written has 5 or 6 decimal digits: three of the country, then those of the network
/// (27.007, 7.3).
pub type OperNumber = Text;

/// A text as it stands between two quotes of a reply: any octets but quotes (V.250, 5.4.2.2).
pub type Quoted = Text;
