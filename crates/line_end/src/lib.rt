//! One end of a line (`LineEnd`): the octets that were read and not taken yet, the deframer that takes them, the octets
//! that wait to be written, and whether a call on the line has failed. A driver has one, and so has a simulated modem.
#![tactic(auto)]

mod line_end;

pub use line_end::LineEnd;
