//! What is lent. It may be anything here, so these prove at little cost.

/// Lends a value, and drops it.
pub fn lend<T: Drop, F: FnOnce(&mut T)>(mut value: T, used: F)
    requires { F.IsAlwaysCallable used }
{
    used(&mut value);
}
