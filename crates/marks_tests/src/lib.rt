//! Marks on standard output: a counter of allocations knows by them which calls are made between.
#![tactic(auto)]

use std::io::Print;

/// The calls of this name begin.
pub fn begin(rt: &impl Print, call: &str) {
    let _ = rt.println(format_args!("> {call}"));
}

/// They have ended.
pub fn end(rt: &impl Print) {
    let _ = rt.println("<");
}
