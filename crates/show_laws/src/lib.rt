//! Laws of what is judged of the line between a driver and a simulated modem.
#![tactic(auto)]

pub mod laws;
