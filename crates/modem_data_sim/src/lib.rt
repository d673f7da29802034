//! A simulated modem on a line with connections that carry data.
#![tactic(auto)]

pub mod laws;
