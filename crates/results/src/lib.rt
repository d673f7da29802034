//! Results beside values that are kept.
//!
//! A function that owns a large value and may return early drops it there, and where it knows the value's type the whole drop is proved at
//! each such place. These functions are generic, so it is proved once for each type.
#![tactic(auto)]

ghost use Rattle.std.specs.Prelude.{◌≡◌, ◌⊎◌, Err, IfErr, IfOk, Ok};

/// What was made, beside what is kept.
pub fn beside<A: Drop, K: Drop, E: Drop>(made: Result<A, E>, kept: K) -> Result<(A, K), E>
    ensures made { IfOk result (λ r. made ≡ Ok r.0) }
    ensures kept { IfOk result (λ r. r.1 ≡ kept) }
    ensures refused { IfErr result (λ e. made ≡ Err e) }
{
    match made {
        Ok(value) => Ok((value, kept)),
        Err(error) => Err(error),
    }
}

/// Both, unless one failed: the first fault counts.
pub fn both<A: Drop, B: Drop, E: Drop>(
    first: Result<A, E>,
    second: Result<B, E>,
) -> Result<(A, B), E>
    ensures first { IfOk result (λ r. first ≡ Ok r.0) }
    ensures second { IfOk result (λ r. second ≡ Ok r.1) }
    ensures refused { IfErr result (λ e. (first ≡ Err e) ⊎ (second ≡ Err e)) }
    ensures in_order { IfErr first (λ e. result ≡ Err e) }
{
    let first = first?;
    let second = second?;
    Ok((first, second))
}

/// What was kept meanwhile, unless something failed.
pub fn unless_failed<K: Drop, E: Drop>(ended: Result<(), E>, kept: K) -> Result<K, E>
    ensures ended { IfOk result (λ _. ended ≡ Ok tt) }
    ensures kept { IfOk result (λ r. r ≡ kept) }
    ensures refused { IfErr result (λ e. ended ≡ Err e) }
{
    match ended {
        Ok(()) => Ok(kept),
        Err(error) => Err(error),
    }
}

/// How something ended, with what it was done to dropped.
pub fn spent<K: Drop, E: Drop>(ended: Result<(), E>, _used_up: K) -> Result<(), E>
    ensures { result ≡ ended }
{
    ended
}
