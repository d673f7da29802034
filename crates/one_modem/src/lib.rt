//! Laws of a driver and a simulated modem at the two ends of one line.
#![tactic(auto)]

pub mod laws;
