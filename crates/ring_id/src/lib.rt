//! Which ring of `rtrb` a producer or a consumer is of. Contracts of crates above say by it that two ends meet. There is no code.
#![tactic(auto)]
